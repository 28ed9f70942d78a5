// Loads of two slices side by side.
ghost use Rattle.std.specs.Prelude.{◌≡◌, ◌+◌, ◌<◌, ◌≤◌, ◌++◌, length, Some};
ghost use Rattle.std.specs.Option.{option_map};
ghost use Rattle.bpf_code.specs.Loads.{load_byte, load_half, load_word};

/// The two bytes at a place of one slice.
#[inline(always)]
fn half_of(bytes: &[u8], at: usize) -> u32
    requires { at + 2 ≤ length bytes.now }
    ensures { Some result ≡ load_half bytes.now at }
{
    u32::from(u16::from_be_bytes([bytes[at], bytes[at + 1]]))
}

/// The four bytes at a place of one slice.
#[inline(always)]
fn word_of(bytes: &[u8], at: usize) -> u32
    requires { at + 4 ≤ length bytes.now }
    ensures { Some result ≡ load_word bytes.now at }
{
    u32::from_be_bytes([bytes[at], bytes[at + 1], bytes[at + 2], bytes[at + 3]])
}

/// The four bytes from a place on, where all lie in the front slice.
#[inline(always)]
pub fn word_in_front(front: &[u8], at: u64) -> Option<u32>
    ensures { result ≡ load_word front.now at }
{
    if at.saturating_add(4) <= front.len() as u64 {
        Some(word_of(front, at as usize))
    } else {
        None
    }
}

/// The byte at a place of both.
#[inline(always)]
fn single(front: &[u8], back: &[u8], at: u64) -> Option<u8>
    ensures { result ≡ load_byte (front.now ++ back.now) at }
{
    let seam = front.len() as u64;
    if at < seam {
        return Some(front[at as usize]);
    }
    let place = at - seam;
    if place < back.len() as u64 {
        Some(back[place as usize])
    } else {
        None
    }
}

/// Two bytes across the seam.
#[inline(always)]
fn half_across(front: &[u8], back: &[u8], at: u64) -> Option<u32>
    requires { at < length front.now }
    ensures { result ≡ load_half (front.now ++ back.now) at }
{
    let high = single(front, back, at)?;
    let low = single(front, back, at + 1)?;
    Some(u32::from(u16::from_be_bytes([high, low])))
}

/// Four bytes across the seam.
#[inline(always)]
fn word_across(front: &[u8], back: &[u8], at: u64) -> Option<u32>
    requires { at < length front.now }
    ensures { result ≡ load_word (front.now ++ back.now) at }
{
    let first = single(front, back, at)?;
    let second = single(front, back, at + 1)?;
    let third = single(front, back, at + 2)?;
    let fourth = single(front, back, at + 3)?;
    Some(u32::from_be_bytes([first, second, third, fourth]))
}

/// The byte at a place.
#[inline(always)]
pub fn byte(front: &[u8], back: &[u8], at: u64) -> Option<u32>
    ensures { result ≡ load_byte (front.now ++ back.now) at }
{
    match single(front, back, at) {
        Some(byte) => Some(u32::from(byte)),
        None => None,
    }
}

/// The two bytes from a place on.
#[inline(always)]
pub fn half(front: &[u8], back: &[u8], at: u64) -> Option<u32>
    ensures { result ≡ load_half (front.now ++ back.now) at }
{
    let seam = front.len() as u64;
    if at.saturating_add(2) <= seam {
        return Some(half_of(front, at as usize));
    }
    if at < seam {
        return half_across(front, back, at);
    }
    let place = at - seam;
    if place < (back.len() as u64).saturating_sub(1) {
        Some(half_of(back, place as usize))
    } else {
        None
    }
}

/// The four bytes from a place on.
#[inline(always)]
pub fn word(front: &[u8], back: &[u8], at: u64) -> Option<u32>
    ensures { result ≡ load_word (front.now ++ back.now) at }
{
    if let Some(word) = word_in_front(front, at) {
        return Some(word);
    }
    let seam = front.len() as u64;
    if at < seam {
        return word_across(front, back, at);
    }
    let place = at - seam;
    if place < (back.len() as u64).saturating_sub(3) {
        Some(word_of(back, place as usize))
    } else {
        None
    }
}
