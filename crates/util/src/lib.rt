// util.rs: the big-endian readers, and the metric of 24 bits, which require that their bytes lie in the body; and the length that a record
// or a block declares.
#![tactic(auto)]

ghost use Rattle.std.specs.Prelude.{◌≡◌, ◌+◌, ◌≤◌, length};
ghost use Rattle.std.proofs.Math.Option.{some};
ghost use Rattle.format.specs.Bytes.{be16_at, be24_at, be32_at, be64_at};
ghost use Rattle.format.specs.Metric.{metric_at};
ghost use Rattle.format.specs.Cut.{standing};
ghost use Rattle.util.specs.Answers.{cost_of, option_of};

pub fn read_be_u16(body: &[u8], p: usize) -> u16
    requires { p + 2 ≤ length body.now }
    ensures { result ≡ be16_at body.now p }
{
    u16::from_be_bytes([body[p], body[p + 1]])
}

pub fn read_be_u24(body: &[u8], p: usize) -> u32
    requires { p + 3 ≤ length body.now }
    ensures { result ≡ be24_at body.now p }
{
    u32::from_be_bytes([0, body[p], body[p + 1], body[p + 2]])
}

pub fn read_be_u32(body: &[u8], p: usize) -> u32
    requires { p + 4 ≤ length body.now }
    ensures { result ≡ be32_at body.now p }
{
    u32::from_be_bytes([body[p], body[p + 1], body[p + 2], body[p + 3]])
}

pub fn read_be_u64(body: &[u8], p: usize) -> u64
    requires { p + 8 ≤ length body.now }
    ensures { result ≡ be64_at body.now p }
{
    let high = read_be_u32(body, p);
    let low = read_be_u32(body, p + 4);
    u64::from(high) << 32 | u64::from(low)
}

// An IPv4 address is the number of its four bytes.
pub fn read_ipv4_addr(body: &[u8], p: usize) -> u32
    requires { p + 4 ≤ length body.now }
    ensures { result ≡ be32_at body.now p }
{
    read_be_u32(body, p)
}

// RFC 2328 appendix B, LSInfinity: 24 bits, all ones.
const LS_INFINITY: u32 = 0xFFFFFF;

// A metric of 24 bits: the cost of a route, or nothing where its destination is unreachable. Every such metric is the last three
// bytes of a word, whose first byte means something else: the word takes one load.
pub fn read_metric24(body: &[u8], p: usize) -> Option<u32>
    requires le_p { 1 ≤ p }
    requires p_in_bounds { p + 3 ≤ length body.now }
    ensures { result ≡ cost_of (metric_at body.now p) }
{
    let metric = read_be_u32(body, p - 1) % 0x1000000;
    if metric == LS_INFINITY {
        None
    } else {
        Some(metric)
    }
}

// How long what stands at p is, by the 16 bits at `length_at` of it: no shorter than `least`, and within the body.
#[inline(always)]
#[tactic(auto, unfolding(format::specs::Cut::standing))]
pub fn declared_length(body: &[u8], p: usize, least: usize, length_at: usize) -> Option<usize>
    requires p_in_bounds { p ≤ length body.now }
    requires length_in_least { length_at + 2 ≤ least }
    ensures { result ≡ option_of (standing least (λ b q. some (be16_at b (q + length_at))) body.now p) }
{
    let left = body.len() - p;
    if left < least {
        return None;
    }
    let n = usize::from(read_be_u16(body, p + length_at));
    if n < least {
        return None;
    }
    if left < n {
        return None;
    }
    Some(n)
}
