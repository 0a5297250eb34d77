// A request on a live table that is handed over. A cut has its subset behind those of the chunks, and at the end the lengths of its outputs.
use crate::lists::Lists;

#[derive(Clone, Copy)]
pub enum LiveCall {
    Step,
    Extract,
}

// By the letter that a line begins with.
impl TryFrom<u8> for LiveCall {
    type Error = ();

    fn try_from(letter: u8) -> Result<LiveCall, ()> {
        match letter {
            b'L' => Ok(LiveCall::Step),
            b'X' => Ok(LiveCall::Extract),
            _ => Err(()),
        }
    }
}

// The lists of the table, the number moved, and the lists of what is moved.
#[derive(Clone, Copy)]
pub struct LiveRequest<'a> {
    pub shape: &'a [u64],
    pub subsets: &'a [u64],
    pub subset: &'a [u64],
    pub old_lengths: &'a [u64],
    pub old: &'a [u8],
    pub moved: u64,
    pub moved_lengths: &'a [u64],
    pub area: &'a [u8],
    pub rooms: &'a [u64],
}

// All lists up to the end of a line.
fn read_request<'a>(call: LiveCall, lists: &mut Lists<'a, '_>) -> Option<LiveRequest<'a>> {
    let is_cut = matches!(call, LiveCall::Extract);
    let shape = lists.numbers(true)?;
    let subsets = lists.numbers(true)?;
    let subset = lists.numbers(is_cut)?;
    let old_lengths = lists.numbers(true)?;
    let old = lists.bytes(true)?;
    let [moved] = lists.numbers(true)? else {
        return None;
    };
    let moved_lengths = lists.numbers(true)?;
    let area = lists.bytes(true)?;
    let rooms = lists.numbers(is_cut)?;
    if !lists.are_all() {
        return None;
    }
    Some(LiveRequest {
        shape,
        subsets,
        subset,
        old_lengths,
        old,
        moved: *moved,
        moved_lengths,
        area,
        rooms,
    })
}

// Reads a line that hands a live table over, for what its letter says. As `read_line`, with the lists of such a table.
pub fn read_live_line<'a>(
    line: &[u8],
    numbers: &'a mut [u64],
    bytes: &'a mut [u8],
) -> Option<(LiveCall, LiveRequest<'a>)> {
    let (letter, line) = line.split_first()?;
    let call = LiveCall::try_from(*letter).ok()?;
    let mut lists = Lists {
        line,
        numbers,
        bytes,
    };
    let request = read_request(call, &mut lists)?;
    Some((call, request))
}
