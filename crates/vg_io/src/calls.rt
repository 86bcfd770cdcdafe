//! What the objects over memory do at a call, by the lists that they were opened with.
ghost use Rattle.std.specs.Prelude.{◌≡◌, ◌<◌, ◌≤◌, length, take, vec_len, vec_capacity, ◌+◌, ◌++◌, IsTrue};
ghost use Rattle.std.specs.List.{All};
ghost use Rattle.vg_io.specs.Objects.{is_named, bounded};

/// How many of `len` bytes call number `call` may move.
pub fn bound_at(pieces: &[u32], call: u64, len: usize) -> usize
    requires { All (λ p. 1 ≤ p) pieces.now }
    ensures exact { result ≡ bounded pieces.now call len }
    ensures within { result ≤ len }
    ensures some { 0 < len → 0 < result }
{
    if pieces.is_empty() {
        return len;
    }
    let last = pieces.len() - 1;
    let at = if call < last as u64 {
        call as usize
    } else {
        last
    };
    let bound = pieces[at] as usize;
    len.min(bound)
}

pub fn is_failing(failing: &[u64], call: u64) -> bool
    ensures { result ≡ is_named failing.now call }
{
    failing.contains(&call)
}

/// Copies the front of `rest` into the front of `buf`.
pub fn copy_front(buf: &mut [u8], rest: &[u8], count: usize)
    requires room { count ≤ length buf.old }
    requires there { count ≤ length rest.now }
    ensures { take count buf.new ≡ take count rest.now }
{
    buf[..count].copy_from_slice(&rest[..count]);
}

/// Appends a piece that there is room for, and so takes no memory.
pub fn append_within(bytes: &mut Vec<u8>, piece: &[u8]) -> bool
    requires { vec_len bytes.old + length piece.now ≤ vec_capacity bytes.old }
    ensures items { bytes.new.items ≡ bytes.old.items ++ piece.now }
    ensures room { vec_capacity bytes.old ≤ vec_capacity bytes.new }
    ensures fits { IsTrue result }
{
    bytes.extend_from_slice(piece).is_ok()
}
