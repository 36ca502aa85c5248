// Cutting a line into its words.
ghost use Rattle.std.specs.Prelude.{◌≡◌};
ghost use Rattle.std.specs.List.{prefix_len};
ghost use Rattle.case_text.specs.Pieces.{gap_byte, word_byte, from_word, spoken, without_return, without_comment, without_tail};
ghost use Rattle.case_text.specs.Parts.{Cuts, Only};

const RETURN: u8 = b'\r';

const COMMENT: u8 = b'#';

/// The first word of some bytes, and what stands behind it.
#[derive(Clone, Copy)]
pub struct Split<'a> {
    pub front: &'a [u8],
    pub rest: &'a [u8],
}

// Whether the byte parts words.
fn is_gap(byte: u8) -> bool
    ensures { result ≡ gap_byte byte }
{
    byte == b' ' || byte == b'\t'
}

// How many bytes that part words the bytes begin with.
fn gap(bytes: &[u8]) -> usize
    ensures { result ≡ prefix_len gap_byte bytes.now }
{
    bytes.iter().take_while(|byte| is_gap(**byte)).count()
}

// How many bytes of a word the bytes begin with.
fn run(bytes: &[u8]) -> usize
    ensures { result ≡ prefix_len word_byte bytes.now }
{
    bytes.iter().take_while(|byte| !is_gap(**byte)).count()
}

fn before_return<'a>(line: &'a [u8]) -> &'a [u8]
    ensures { result.now ≡ without_return line.now }
{
    match line {
        [front @ .., RETURN] => front,
        _ => line,
    }
}

fn before_comment<'a>(line: &'a [u8]) -> &'a [u8]
    ensures { result.now ≡ without_comment line.now }
{
    // Whether a `#` would begin a comment here.
    let mut bare = true;
    for (at, byte) in line.iter().enumerate() {
        if bare && *byte == COMMENT {
            return &line[..at];
        }
        bare = is_gap(*byte);
    }
    line
}

fn before_tail<'a>(line: &'a [u8]) -> &'a [u8]
    ensures { result.now ≡ without_tail line.now }
{
    let tail = line.iter().rev().take_while(|byte| is_gap(**byte)).count();
    &line[..line.len() - tail]
}

/// The line without a carriage return at its end, without its comment, and without the spaces and tabs at the end of that.
pub fn spoken_of<'a>(line: &'a [u8]) -> &'a [u8]
    ensures { result.now ≡ spoken line.now }
{
    before_tail(before_comment(before_return(line)))
}

/// The bytes from their first word on.
pub fn from_first<'a>(bytes: &'a [u8]) -> &'a [u8]
    ensures { result.now ≡ from_word bytes.now }
{
    &bytes[gap(bytes)..]
}

/// The first word, if there is one, and what stands behind it.
pub fn next_word<'a>(bytes: &'a [u8]) -> Option<Split<'a>>
    ensures { Cuts bytes.now result }
{
    let words = from_first(bytes);
    if words.is_empty() {
        return None;
    }
    let end = run(words);
    Some(Split {
        front: &words[..end],
        rest: &words[end..],
    })
}

/// The word, if the bytes have one word.
pub fn one_word<'a>(bytes: &'a [u8]) -> Option<&'a [u8]>
    ensures { Only bytes.now result }
{
    let split = next_word(bytes)?;
    next_word(split.rest).is_none().then_some(split.front)
}
