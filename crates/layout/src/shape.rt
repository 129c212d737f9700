// What the settings fix, so that a call computes it once.
ghost use Rattle.layout.specs.Held.{settings_by, Lays};

// The settings, and what follows from them: how many lists a port has, how many credit cells, lists and nodes there are, where three tables
// start, the least length of a packet, and how many destinations a header can name.
// kept: no struct of a memory and its shape: calls lend the memory by & or by &mut, so it would be two, and one that holds a &mut must keep
// its ghost field at each write, where an act breaks what `Works` says (docs/DECISIONS.md, 137).
#[derive(Clone, Copy)]
pub struct Shape {
    pub ports: usize,
    pub queues: usize,
    pub nodes: usize,
    pub beat: usize,
    pub slots: usize,
    pub credit: usize,
    pub edition: usize,
    pub packets: usize,
    pub row: usize,
    pub cells: usize,
    pub lists: usize,
    pub all: usize,
    pub arrival: usize,
    pub head: usize,
    pub next: usize,
    pub least: usize,
    pub dests: usize,
    pub ghost laid: { Lays (settings_by ports queues nodes beat slots credit edition packets) row cells lists all arrival head next least dests },
}
