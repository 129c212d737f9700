// The C interface (include/ventorupo.h): each call answers 0 or the number of a refusal, and writes its answer into lent room. What it
// answers and leaves, for any memory and any numbers, is read off the reply of M by the definitions of the crate rooms.
#![tactic(auto)]

ghost use Rattle.std.specs.Prelude.{◌≡◌, List, [], ◌∷◌, ℕ};
ghost use Rattle.std.proofs.Math.ListN as ln;
ghost use Rattle.ledger.specs.Header.{alone};
ghost use Rattle.ledger.specs.Calls.{arrive, stitch, prefetch, credit, map_to, turn, ready, where_is, clear, report, bucket, show};
ghost use Rattle.ledger.specs.Buckets.{untimed, at};
ghost use Rattle.settings.specs.Told.{told_settings};
ghost use Rattle.ledger.specs.Desk.{setup, act};
ghost use Rattle.memory.specs.Memory.{M};
ghost use Rattle.memory.specs.Packets.{packet_on};
ghost use Rattle.memory.specs.Rounds.{round_on};
ghost use Rattle.memory.specs.Audit.{audit_on};
ghost use Rattle.memory.specs.Repair.{repaired};
ghost use Rattle.sound.specs.Sound.{broken_in};
ghost use Rattle.codec.specs.Reader.{reads};
ghost use Rattle.codec.specs.Writer.{writes};
ghost use Rattle.labels.specs.Labels.{label_at, label_room, header_room};
ghost use Rattle.rooms.specs.Rooms.{told_packet, part_room};
ghost use Rattle.rooms.specs.Rooms.{told, told_in, told_round, shown, entry_room, record_room, sent_room, ready_room, mark_room, bucket_room, found_numbers};
ghost use Rattle.ledger.specs.Audit.{place_room};
ghost use Rattle.capi.specs.Size.{settings_at, size_for};

use ledger::EntryId;
use settings::Settings;

// The settings of struct vr_settings.
fn asked(eight: &[u32; 8]) -> Settings
    ensures { told_settings result ≡ settings_at eight.now }
{
    let [nodes, beat, slots, credit, ports, queues, edition, packets] = *eight;
    Settings {
        ports,
        queues,
        nodes,
        beat,
        slots,
        credit,
        edition,
        packets,
    }
}

#[unsafe(no_mangle)]
#[tactic(auto, unfolding(crate::specs::Size::size_for))]
pub extern "C" fn vr_size(eight: &[u32; 8]) -> u64
    ensures { result ≡ size_for (settings_at eight.now) }
{
    let s = asked(eight);
    if settings::in_rows(s) {
        layout::size_of(layout::shape_of(s)) as u64
    } else {
        0
    }
}

#[unsafe(no_mangle)]
pub extern "C" fn vr_setup(mem: &mut [u8], eight: &[u32; 8]) -> u32
    ensures { ◌≡◌ {A = ℕ × List ℕ} (result, mem.new) (told (M (setup (settings_at eight.now)) mem.old)) }
{
    rooms::plain(switch::set_up(mem, asked(eight)))
}

#[unsafe(no_mangle)]
pub extern "C" fn vr_arrive(mem: &mut [u8], port: u32, header: &[u8], entry: &mut u16) -> u32
    ensures { ◌≡◌ {A = ℕ × List ℕ × ℕ} (result, mem.new, entry.new)
        (told_in entry_room entry.old (M (act (arrive port (alone header.now))) mem.old)) }
{
    rooms::put_entry(switch::arrive(mem, port, header), entry)
}

#[unsafe(no_mangle)]
pub extern "C" fn vr_arrive_packet(
    mem: &mut [u8],
    packets: &mut [u8],
    port: u32,
    packet: &[u8],
    entry: &mut u16,
) -> u32
    ensures { ◌≡◌ {A = ℕ × List ℕ × List ℕ × ℕ} (result, mem.new, packets.new, entry.new)
        (told_packet entry.old (packet_on mem.old packets.old port packet.now)) }
{
    rooms::put_entry(switch::arrive_packet(mem, packets, port, packet), entry)
}

// The packet is `length` bytes of the owner's memory from byte `at` on: no function of C hands back a part of lent memory.
#[unsafe(no_mangle)]
pub extern "C" fn vr_show(
    mem: &[u8],
    p0: &[u8],
    p1: &[u8],
    p2: &[u8],
    p3: &[u8],
    port: u32,
    queue: u32,
    owner: &mut u32,
    at: &mut u64,
    length: &mut u32,
) -> u32
    ensures { ◌≡◌ {A = ℕ × (ℕ × ℕ × ℕ)} (result, (owner.new, at.new, length.new))
        (shown part_room (owner.old, at.old, length.old)
        (M (act (show (ln.length p0.now ∷ ln.length p1.now ∷ ln.length p2.now ∷ ln.length p3.now ∷ []) port queue))
        mem.now).0) }
{
    let sizes = [p0.len(), p1.len(), p2.len(), p3.len()];
    rooms::put_part(switch::show_at(mem, sizes, port, queue), owner, at, length)
}

#[unsafe(no_mangle)]
pub extern "C" fn vr_stitch(mem: &mut [u8], port: u32, room: &mut [u8; 10]) -> u32
    ensures { ◌≡◌ {A = ℕ × List ℕ × List ℕ} (result, mem.new, room.new)
        (told_in record_room room.old (M (act (stitch port)) mem.old)) }
{
    rooms::put_record(switch::stitch(mem, port), room)
}

#[unsafe(no_mangle)]
pub extern "C" fn vr_prefetch(mem: &mut [u8], port: u32, queue: u32, entry: &mut u16) -> u32
    ensures { ◌≡◌ {A = ℕ × List ℕ × ℕ} (result, mem.new, entry.new)
        (told_in entry_room entry.old (M (act (prefetch port queue)) mem.old)) }
{
    rooms::put_entry(switch::prefetch(mem, port, queue), entry)
}

#[unsafe(no_mangle)]
pub extern "C" fn vr_credit(mem: &mut [u8], port: u32, queue: u32, amount: u32) -> u32
    ensures { ◌≡◌ {A = ℕ × List ℕ} (result, mem.new) (told (M (act (credit port queue amount)) mem.old)) }
{
    rooms::plain(switch::credit(mem, port, queue, amount))
}

#[unsafe(no_mangle)]
pub extern "C" fn vr_map(mem: &mut [u8], id: u32, port: u32) -> u32
    ensures { ◌≡◌ {A = ℕ × List ℕ} (result, mem.new) (told (M (act (map_to id port)) mem.old)) }
{
    rooms::plain(switch::map_to(mem, id, port))
}

#[unsafe(no_mangle)]
pub extern "C" fn vr_turn(mem: &mut [u8], port: u32, sent: &mut [u8; 16]) -> u32
    ensures { ◌≡◌ {A = ℕ × List ℕ × List ℕ} (result, mem.new, sent.new)
        (told_in sent_room sent.old (M (act (turn untimed port)) mem.old)) }
{
    rooms::put_sent(switch::turn(mem, port), sent)
}

#[unsafe(no_mangle)]
pub extern "C" fn vr_ready(mem: &[u8], port: u32, word: &mut u64, count: &mut u32) -> u32
    ensures { ◌≡◌ {A = ℕ × (ℕ × ℕ)} (result, (word.new, count.new))
        (shown ready_room (word.old, count.old) (M (act (ready port)) mem.now).0) }
{
    rooms::put_ready(switch::ready(mem, port), word, count)
}

#[unsafe(no_mangle)]
pub extern "C" fn vr_where(mem: &[u8], entry: u32, place: &mut [u8; 8]) -> u32
    ensures { ◌≡◌ {A = ℕ × List ℕ} (result, place.new)
        (shown (place_room entry) place.old (M (act (where_is entry)) mem.now).0) }
{
    let Ok(id) = u16::try_from(entry) else {
        return rooms::put_place(switch::where_past(mem), EntryId(0), place);
    };
    let x = EntryId(id);
    rooms::put_place(switch::where_is(mem, x), x, place)
}

#[unsafe(no_mangle)]
pub extern "C" fn vr_round(mem: &mut [u8], turns: &mut [u8]) -> u32
    ensures { ◌≡◌ {A = ℕ × List ℕ × List ℕ} (result, mem.new, turns.new) (told_round (round_on mem.old turns.old)) }
{
    rooms::plain(switch::round(mem, turns))
}

#[unsafe(no_mangle)]
pub extern "C" fn vr_audit(mem: &[u8], places: &mut [u8]) -> u32
    ensures { ◌≡◌ {A = ℕ × List ℕ} (result, places.new) (told (audit_on mem.now places.old)) }
{
    rooms::plain(switch::audit(mem, places))
}

#[unsafe(no_mangle)]
pub extern "C" fn vr_find(mem: &[u8], rule: &mut u32, item: &mut u64)
    ensures { ◌≡◌ {A = ℕ × ℕ} (rule.new, item.new) (found_numbers (broken_in mem.now)) }
{
    rooms::put_found(switch::find(mem), rule, item)
}

#[unsafe(no_mangle)]
pub extern "C" fn vr_repair(mem: &mut [u8]) -> u32
    ensures { ◌≡◌ {A = ℕ × List ℕ} (result, mem.new) (told (repaired mem.old)) }
{
    rooms::plain(switch::repair(mem))
}

#[unsafe(no_mangle)]
pub extern "C" fn vr_read_header(
    edition: u32,
    ports: u32,
    queues: u32,
    header: &[u8],
    fields: &mut [u32; 8],
) -> u32
    ensures { ◌≡◌ {A = ℕ × List ℕ} (result, fields.new)
        (label_room (reads edition ports queues header.now) fields.old) }
{
    labels::put_label(codec::read(edition, ports, queues, header), fields)
}

#[unsafe(no_mangle)]
#[tactic(auto, using(labels::proofs::Laws::writes_room))]
pub extern "C" fn vr_write_header(
    edition: u32,
    ports: u32,
    queues: u32,
    fields: &[u32; 8],
    room: &mut [u8; 12],
    size: &mut u32,
) -> u32
    ensures { ◌≡◌ {A = ℕ × List ℕ × ℕ} (result, room.new, size.new)
        (header_room (writes edition ports queues (label_at fields.now)) room.old size.old) }
{
    let label = labels::label_at(fields);
    let written = codec::write(edition, ports, queues, label);
    labels::put_header(written, room, size)
}

#[unsafe(no_mangle)]
pub extern "C" fn vr_clear(mem: &mut [u8], port: u32) -> u32
    ensures { ◌≡◌ {A = ℕ × List ℕ} (result, mem.new) (told (M (act (clear port)) mem.old)) }
{
    rooms::plain(switch::clear(mem, port))
}

#[unsafe(no_mangle)]
pub extern "C" fn vr_report(mem: &[u8], port: u32, mark: &mut u32) -> u32
    ensures { ◌≡◌ {A = ℕ × ℕ} (result, mark.new) (shown mark_room mark.old (M (act (report port)) mem.now).0) }
{
    rooms::put_report(switch::report(mem, port), mark)
}

#[unsafe(no_mangle)]
pub extern "C" fn vr_timed_turn(mem: &mut [u8], port: u32, time: u32, sent: &mut [u8; 16]) -> u32
    ensures { ◌≡◌ {A = ℕ × List ℕ × List ℕ} (result, mem.new, sent.new)
        (told_in sent_room sent.old (M (act (turn (at time) port)) mem.old)) }
{
    rooms::put_sent(switch::timed_turn(mem, port, time), sent)
}

#[unsafe(no_mangle)]
pub extern "C" fn vr_bucket(mem: &[u8], port: u32, number: u32, count: &mut u32) -> u32
    ensures { ◌≡◌ {A = ℕ × ℕ} (result, count.new)
        (shown bucket_room count.old (M (act (bucket port number)) mem.now).0) }
{
    rooms::put_bucket(switch::bucket(mem, port, number), count)
}
