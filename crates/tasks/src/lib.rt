// One call of a run (paper 02, Q-10), on a memory that is a switch state: it is told in four bytes, and the ready words that the run keeps stay
// right.
#![tactic(auto)]

ghost use Rattle.ledger.specs.Buckets.{untimed};
ghost use Rattle.ledger.specs.Calls.{prefetch, credit, turn};
ghost use Rattle.asks.specs.Asks.{task_act};
ghost use Rattle.tasks.specs.Tasks.{Going, Done, CanStep};

use asks::Task;
use layout::Shape;
use ledger::{Load, Refusal};
use words::Words;

// ---- acts that touch a queue: its bit of the port's ready word is made again

fn prefetch(m: &mut [u8], s: Shape, port: u32, queue: u32, words: &mut Words) -> [u8; 4]
    requires { Going s m.old words.old }
    ensures { Done s (prefetch port queue) m.old m.new words.new result }
{
    let answer = moves::prefetch(m, s, port, queue);
    if answer.is_ok() {
        words.renew(m, s, port as usize, queue as usize);
    }
    answers::of_entry(answer)
}

fn credit(m: &mut [u8], s: Shape, port: u32, queue: u32, amount: u32, words: &mut Words) -> [u8; 4]
    requires { Going s m.old words.old }
    ensures { Done s (credit port queue amount) m.old m.new words.new result }
{
    let answer = credits::credit(m, s, port, queue, amount);
    if answer.is_ok() {
        let q = queue as usize;
        words.renew(m, s, port as usize, q);
    }
    answers::of_plain(answer)
}

// A turn: the port's word says which queue is next, and nothing but the node that leaves is told.
fn turn(m: &mut [u8], s: Shape, port: u32, words: &mut Words) -> [u8; 4]
    requires { Going s m.old words.old }
    ensures { Done s (turn untimed port) m.old m.new words.new result }
{
    let p = port as usize;
    if s.ports <= p {
        return answers::of_refusal(Refusal::NoPort);
    }
    let word = words.word_of(m, s, p);
    if word == 0 {
        return [0, 1, 0, 0];
    }
    let q = turns::next_queue(m, s, p, word);
    let x = turns::depart(m, s, p, q);
    words.renew(m, s, p, q);
    answers::of_node(x)
}

// ---- one call of a run

// The task, told in four bytes.
pub fn carry_out(m: &mut [u8], s: Shape, fields: &[u8], task: Task, words: &mut Words) -> [u8; 4]
    requires { CanStep s task m.old fields.now words.old }
    ensures { Done s (task_act fields.now task) m.old m.new words.new result }
{
    match task {
        Task::Arrive { port, at, size } => {
            let header = &fields[at..at + size];
            answers::of_entry(arrivals::arrive(m, s, Load::Header, port, header))
        }
        Task::Stitch { port } => answers::of_stitched(moves::stitch(m, s, port)),
        Task::Prefetch { port, queue } => prefetch(m, s, port, queue, words),
        Task::Turn { port } => turn(m, s, port, words),
        Task::Credit {
            port,
            queue,
            amount,
        } => credit(m, s, port, queue, amount, words),
        Task::Map { id, port } => answers::of_plain(maps::map_to(m, s, id, port)),
    }
}
