// Lists of numbers and of bytes, read from text. `-` is the empty list. Numbers are decimal and joined by commas, bytes are pairs of
// hexadecimal digits; COUNT*X is a run of equal ones, and `+` joins runs and plain parts.
ghost use Rattle.std.specs.Prelude.{◌≡◌, ◌+◌, ◌≤◌, length, IfNone, IfSome, get_or};
ghost use Rattle.text.specs.Scan.{digit_of, next_number, number_of, octet_of, between};

// The value of a hexadecimal digit.
#[tactic(auto, unfolding(crate::specs::Scan::digit_of))]
fn digit(b: u8) -> Option<u8>
    ensures value { result ≡ digit_of b }
    ensures small { IfSome result (λ d. d ≤ 15) }
{
    match b {
        b'0'..=b'9' => Some(b - b'0'),
        b'A'..=b'F' => Some(b - b'A' + 10),
        _ => None,
    }
}

// The number with one more decimal digit behind it.
#[tactic(auto, unfolding(crate::specs::Scan::next_number))]
fn next_number(v: u64, b: u8) -> Option<u64>
    ensures { result ≡ next_number v b }
{
    let d = digit(b)?;
    if d > 9 {
        return None;
    }
    v.checked_mul(10)?.checked_add(d as u64)
}

// The number that decimal digits say.
pub fn read_number(text: &[u8]) -> Option<u64>
    ensures { result ≡ number_of text.now }
{
    if text.is_empty() {
        return None;
    }
    let mut v: u64 = 0;
    for b in text {
        v = next_number(v, *b)?;
    }
    Some(v)
}

// The byte that two hexadecimal digits say.
#[tactic(auto, unfolding(crate::specs::Scan::octet_of))]
fn read_octet(text: &[u8]) -> Option<u8>
    ensures { result ≡ octet_of text.now }
{
    let [high, low] = text else {
        return None;
    };
    Some(16 * digit(*high)? + digit(*low)?)
}

// What a list is of.
pub trait Element: Copy + Drop {
    // Whether the byte stands between two parts of a list.
    fn ends_part(b: u8) -> bool;

    // One of them.
    fn read(text: &[u8]) -> Option<Self>;

    // A part that is no run, into the front of a room; how many it has.
    fn read_plain(part: &[u8], room: &mut [Self]) -> Option<usize>
        ensures { IfSome result (λ n. n ≤ length room.old) };
}

impl Element for u8 {
    fn ends_part(b: u8) -> bool {
        b == b'+'
    }

    fn read(text: &[u8]) -> Option<u8> {
        read_octet(text)
    }

    fn read_plain(part: &[u8], room: &mut [u8]) -> Option<usize> {
        let pairs = part.chunks(2);
        let n = pairs.len();
        for (place, pair) in room.get_mut(..n)?.iter_mut().zip(pairs) {
            *place = read_octet(pair)?;
        }
        Some(n)
    }
}

impl Element for u64 {
    fn ends_part(b: u8) -> bool {
        b == b',' || b == b'+'
    }

    fn read(text: &[u8]) -> Option<u64> {
        read_number(text)
    }

    fn read_plain(part: &[u8], room: &mut [u64]) -> Option<usize> {
        *room.first_mut()? = read_number(part)?;
        Some(1)
    }
}

// An element, as often as a count says.
fn read_run<T: Element>(count: &[u8], element: &[u8], room: &mut [T]) -> Option<usize>
    ensures { IfSome result (λ n. n ≤ length room.old) }
{
    let n = read_number(count)? as usize;
    let x = T::read(element)?;
    // not `fill`: it asks for a clone that cannot fail, which a type parameter does not say
    for place in room.get_mut(..n)? {
        *place = x;
    }
    Some(n)
}

// A part COUNT*X, or one that is no run.
fn read_part<T: Element>(part: &[u8], room: &mut [T]) -> Option<usize>
    ensures { IfSome result (λ n. n ≤ length room.old) }
{
    if part.is_empty() {
        return None;
    }
    let Some(star) = part.iter().position(|b| *b == b'*') else {
        return T::read_plain(part, room);
    };
    read_run(&part[..star], &part[star + 1..], room)
}

// The parts of a list, one behind the other; how many elements they have.
fn read_parts<T: Element>(text: &[u8], room: &mut [T]) -> Option<usize> {
    let mut n = 0;
    for part in text.split(|b| T::ends_part(*b)) {
        n += read_part(part, room.get_mut(n..)?)?;
    }
    Some(n)
}

// The list that the text says, read into the front of a room. What is behind it is the room of the next one.
pub fn read_list<'a, T: Element>(text: &[u8], room: &mut &'a mut [T]) -> Option<&'a [T]>
    ensures read { IfSome result
        (λ list. length list.now + length room.new.now ≡ length room.old.now) }
    ensures none { IfNone result (length room.new.now ≡ length room.old.now) }
{
    if text == b"-".as_slice() {
        return Some(&[]);
    }
    let n = read_parts(text, *room)?;
    let list = room.split_off_mut(..n)?;
    Some(list)
}

// The elements between two places; none where these are no places of the list.
#[tactic(auto, unfolding(crate::specs::Scan::between))]
pub fn part_of<T>(s: &[T], from: usize, to: usize) -> &[T]
    ensures { result.now ≡ between from to s.now }
{
    s.get(from..to).unwrap_or(&[])
}

// A number of a list; 0 where the list is shorter.
pub fn number_at(s: &[u64], i: usize) -> u64
    ensures { result ≡ get_or s.now i 0 }
{
    s.get(i).copied().unwrap_or(0)
}
