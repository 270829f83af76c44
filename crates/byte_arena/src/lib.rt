// The changes of a byte table that maps and sets share: a key put into a slot, a slot freed with its gap closed, and all wiped.
#![tactic(auto)]

ghost use Rattle.std.specs.Prelude.{◌≡◌, ◌+◌, ◌≤◌, length};
ghost use Rattle.byte_slots.specs.Memory.{part, pasted, closed, fall, fallen, filled, emptied, wiped, spans_now, spans_before, spans_after};
ghost use Rattle.byte_arena.specs.Needs.{Fillable, Freeable};

use arrays::copy;
use byte_slots::{len_at, offset_at, put_len};
use kinds::Mark;

// The key's bytes go into the arena from a place on.
fn paste(arena: &mut [u8], at: usize, key: &[u8])
    requires { at + length key.now ≤ length arena.old }
    ensures { arena.new ≡ pasted arena.old at key.now }
{
    let end = at + key.len();
    copy(&mut arena[at..end], key);
}

// So many bytes of the arena move down from one place to another.
fn shift_down(arena: &mut [u8], to: usize, from: usize, count: usize)
    requires { (to ≤ from) × (from + count ≤ length arena.old) }
    ensures { arena.new ≡ pasted arena.old to (part arena.old from count) }
{
    for i in 0..count {
        arena[to + i] = arena[from + i];
    }
}

// The arena without a span: the used bytes behind it move down, and those vacated become 0.
fn close_gap(arena: &mut [u8], offset: usize, len: usize, used: usize)
    requires { (offset + len ≤ used) × (used ≤ length arena.old) }
    ensures { arena.new ≡ closed arena.old offset len used }
{
    let end = offset + len;
    shift_down(arena, offset, end, used - end);
    let vacated = used - len;
    arena[vacated..used].fill(0);
}

// The offset of a slot with this mark, after the spans from an end on fell.
#[tactic(auto, unfolding(byte_slots::specs::Memory::fall))]
fn lowered(mark: u8, offset: u16, end: u16, len: u16) -> u16
    requires { len ≤ end }
    ensures { result ≡ fall end len mark offset }
{
    if mark == Mark::Live as u8 && end <= offset {
        offset - len
    } else {
        offset
    }
}

// Each live offset from an end on falls.
fn fall_offsets(marks: &[u8], offsets: &mut [u16], end: u16, len: u16)
    requires { (length offsets.old ≡ length marks.now) × (len ≤ end) }
    ensures { offsets.new ≡ fallen end len marks.now offsets.old }
{
    for (i, offset) in offsets.iter_mut().enumerate() {
        *offset = lowered(marks[i], *offset, end, len);
    }
}

// A key goes to a slot: its bytes behind the used ones.
pub fn fill(
    marks: &mut [u8],
    offsets: &mut [u16],
    lengths: &mut [u8],
    arena: &mut [u8],
    slot: usize,
    used: usize,
    key: &[u8],
)
    requires { Fillable (spans_now marks.old offsets.old lengths.old arena.old) slot used key.now }
    ensures { spans_after marks.new offsets.new lengths.new arena.new ≡ filled (spans_before marks.old offsets.old lengths.old arena.old) slot key.now }
{
    paste(arena, used, key);
    marks[slot] = Mark::Live as u8;
    offsets[slot] = used as u16;
    put_len(lengths, slot, key.len());
}

// A slot is freed: the gap of its span is closed, and the offsets behind it fall.
pub fn free(
    marks: &mut [u8],
    offsets: &mut [u16],
    lengths: &mut [u8],
    arena: &mut [u8],
    slot: usize,
    used: usize,
)
    requires { Freeable (spans_now marks.old offsets.old lengths.old arena.old) slot used }
    ensures { spans_after marks.new offsets.new lengths.new arena.new ≡ emptied (spans_before marks.old offsets.old lengths.old arena.old) slot }
{
    let offset = offset_at(offsets, slot);
    let len = len_at(lengths, slot);
    close_gap(arena, offset as usize, len as usize, used);
    fall_offsets(marks, offsets, offset + len, len);
    marks[slot] = Mark::Freed as u8;
    offsets[slot] = 0;
    put_len(lengths, slot, 0);
}

// All marks, offsets, lengths and arena bytes are to be 0.
pub fn wipe(marks: &mut [u8], offsets: &mut [u16], lengths: &mut [u8], arena: &mut [u8])
    ensures { spans_after marks.new offsets.new lengths.new arena.new ≡ wiped (spans_before marks.old offsets.old lengths.old arena.old) }
{
    marks.fill(0);
    offsets.fill(0);
    lengths.fill(0);
    arena.fill(0);
}
