// The part of a packet that a kind 8 entry names by its range. The packet is the data that was walked, or holds them, and
// its first byte is at the place offset.
ghost use Rattle.std.specs.Prelude.{◌≡◌, ◌+◌, length};
ghost use Rattle.format.specs.Part.{lies_in, part_number, part_place, part_of};

use refusal::Refusal;

// Whether a range lies in a packet of n bytes. No sum is made, so that none can wrap.
#[tactic(auto, using(format::proofs::Part::without_sum), unfolding(format::specs::Part::lies_in))]
fn lies_in(n: usize, offset: u64, start: u32, end: u32) -> bool
    ensures { result ≡ lies_in n offset start end }
{
    let from = start as u64;
    let to = end as u64;
    offset <= from && from <= to && to - offset <= n as u64
}

// 0, or the number of the refusal: the requirements ask for it by one call, and for the part by another.
#[tactic(auto, unfolding(format::specs::Part::part_number))]
pub fn part_number(packet: &[u8], offset: u64, start: u32, end: u32) -> u8
    ensures { result ≡ part_number (length packet.now) offset start end }
{
    if lies_in(packet.len(), offset, start, end) {
        0
    } else {
        Refusal::NotInPacket.number()
    }
}

// The part itself; refused, the empty one at the packet's front.
#[tactic(auto, using(format::proofs::Part::lies), unfolding(format::specs::Part::part_of, format::specs::Part::part_place))]
pub fn packet_part<'a>(packet: &'a [u8], offset: u64, start: u32, end: u32) -> &'a [u8]
    ensures result_value { result.now ≡ part_of packet.now offset start end }
    ensures ref_ptr_value { result.ref_ptr ≡ (packet.entry.ref_ptr.0, packet.entry.ref_ptr.1 + part_place (length packet.now) offset start end) }
{
    if lies_in(packet.len(), offset, start, end) {
        let a = (start as u64 - offset) as usize;
        let e = (end as u64 - offset) as usize;
        &packet[a..e]
    } else {
        &packet[..0]
    }
}
