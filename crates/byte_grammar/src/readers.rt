//! The pieces as code. Each gives what was read and the bytes after it, or nothing; none takes memory.

ghost use Rattle.std.specs.Prelude.{◌≡◌};
ghost use Rattle.std.specs.Int.{w16, w32, w64};
ghost use Rattle.byte_grammar.specs.Reading.{Gives, byte, constant, is_from_1_to, number, part};

/// The first byte.
pub fn byte_of(bytes: &[u8]) -> Option<(u8, &[u8])>
    ensures value { Gives (λ x. (x.0, x.1.now)) result (byte bytes.now) }
{
    match bytes {
        [] => None,
        [first, rest @ ..] => Some((*first, rest)),
    }
}

/// The first `len` bytes.
pub fn part_of(len: usize, bytes: &[u8]) -> Option<(&[u8], &[u8])>
    ensures value { Gives (λ x. (x.0.now, x.1.now)) result (part len bytes.now) }
{
    if bytes.len() < len {
        return None;
    }
    Some(bytes.split_at(len))
}

/// A number of two bytes, the highest first.
pub fn u16_of(bytes: &[u8]) -> Option<(u16, &[u8])>
    ensures value { Gives (λ x. (x.0, x.1.now)) result (number w16 bytes.now) }
{
    if bytes.len() < 2 {
        return None;
    }
    let (front, rest) = bytes.split_at(2);
    let number = u16::from_be_bytes([front[0], front[1]]);
    Some((number, rest))
}

/// A number of four bytes, the highest first.
pub fn u32_of(bytes: &[u8]) -> Option<(u32, &[u8])>
    ensures value { Gives (λ x. (x.0, x.1.now)) result (number w32 bytes.now) }
{
    if bytes.len() < 4 {
        return None;
    }
    let (front, rest) = bytes.split_at(4);
    let number = u32::from_be_bytes([front[0], front[1], front[2], front[3]]);
    Some((number, rest))
}

/// A number of eight bytes, the highest first.
pub fn u64_of(bytes: &[u8]) -> Option<(u64, &[u8])>
    ensures value { Gives (λ x. (x.0, x.1.now)) result (number w64 bytes.now) }
{
    if bytes.len() < 8 {
        return None;
    }
    let (front, rest) = bytes.split_at(8);
    let number = u64::from_be_bytes([
        front[0], front[1], front[2], front[3], front[4], front[5], front[6], front[7],
    ]);
    Some((number, rest))
}

/// The bytes after `text`, where they begin with it.
#[tactic(auto, unfolding(crate::specs::Reading::constant))]
pub fn constant_of<'a>(text: &[u8], bytes: &'a [u8]) -> Option<&'a [u8]>
    ensures value { Gives (λ r. (tt, r.now)) result (constant text.now bytes.now) }
{
    bytes.strip_prefix(text)
}

/// Whether a count is at least one and not above the limit.
pub fn is_count(limit: u16, count: u16) -> bool
    ensures value { result ≡ is_from_1_to limit count }
{
    1 <= count && count <= limit
}

#[cfg(test)]
mod tests {
    use super::*;

    #[test]
    fn the_front_is_read_and_the_rest_is_left(rt: HostRuntime) {
        let bytes = [1, 2, 3, 4, 5, 6, 7, 8, 9];
        assert_eq!(rt; byte_of(&bytes), Some((1, &bytes[1..])));
        assert_eq!(rt; part_of(2, &bytes), Some((&bytes[..2], &bytes[2..])));
        assert_eq!(rt; u16_of(&bytes), Some((0x0102, &bytes[2..])));
        assert_eq!(rt; u32_of(&bytes), Some((0x0102_0304, &bytes[4..])));
        assert_eq!(rt; u64_of(&bytes), Some((0x0102_0304_0506_0708, &bytes[8..])));
        assert_eq!(rt; constant_of(&[1, 2], &bytes), Some(&bytes[2..]));
        assert_eq!(rt; constant_of(&[1, 3], &bytes), None);
        assert!(rt; is_count(9, 9) && !is_count(9, 0) && !is_count(9, 10));
    }
}
