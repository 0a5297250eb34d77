// The lists of a line, read one behind the other: numbers into one room and bytes into another.
use text::scan;
use text::scan::Element;

// What is left of a line, and of the rooms.
#[derive(Drop)]
pub(crate) struct Lists<'a, 'b> {
    pub(crate) line: &'b [u8],
    pub(crate) numbers: &'a mut [u64],
    pub(crate) bytes: &'a mut [u8],
}

// The next list: a space, and then the list up to the next space.
fn next_list<'a, T: Element>(line: &mut &[u8], room: &mut &'a mut [T]) -> Option<&'a [T]> {
    let rest = line.strip_prefix(b" ")?;
    let end = rest.iter().position(|b| *b == b' ').unwrap_or(rest.len());
    let (text, after) = rest.split_at(end);
    *line = after;
    scan::read_list(text, room)
}

impl<'a, 'b> Lists<'a, 'b> {
    // The next list of numbers, if one is wanted.
    pub(crate) fn numbers(&mut self, wanted: bool) -> Option<&'a [u64]> {
        if !wanted {
            return Some(&[]);
        }
        next_list(&mut self.line, &mut self.numbers)
    }

    // The next list of bytes, if one is wanted.
    pub(crate) fn bytes(&mut self, wanted: bool) -> Option<&'a [u8]> {
        if !wanted {
            return Some(&[]);
        }
        next_list(&mut self.line, &mut self.bytes)
    }

    // Whether the line has no more lists.
    pub(crate) fn are_all(&self) -> bool {
        self.line.is_empty()
    }
}
