// Lines of decimal numbers, read into one area for each width.
ghost use Rattle.std.specs.Prelude.{◌≤◌, ◌<◌, length, IfSome};

// The most numbers of a line.
pub const MOST_NUMBERS: usize = 4096;

// A number as it is read: its digits so far, and whether a minus sign stands among them.
#[derive(Clone, Copy)]
struct Word {
    value: u32,
    minus: bool,
}

impl Word {
    // No digit yet.
    const BLANK: Word = Word {
        value: 0,
        minus: false,
    };

    // The number after one more byte; none where the byte is neither a digit nor a sign, or the number is too large.
    fn grown(self, c: u8) -> Option<Word> {
        match c {
            b'-' => Some(Word {
                minus: true,
                ..self
            }),
            b'0'..=b'9' => {
                let value = self.value.checked_mul(10)?.checked_add((c - b'0') as u32)?;
                Some(Word { value, ..self })
            }
            _ => None,
        }
    }

    // The number as a word of 32 bits.
    fn number(self) -> u32 {
        if self.minus {
            self.value.wrapping_neg()
        } else {
            self.value
        }
    }
}

// The numbers of a line in each of the widths: where a number does not fit, the largest of the width.
#[derive(Drop)]
pub struct Line {
    count: usize,
    unsigned: [u32; MOST_NUMBERS],
    signed: [i32; MOST_NUMBERS],
    bytes: [u8; MOST_NUMBERS],
    shorts: [u16; MOST_NUMBERS],
    ghost within: { count ≤ 4096 },
}

impl Line {
    pub fn new() -> Line {
        Line {
            count: 0,
            unsigned: [0; MOST_NUMBERS],
            signed: [0; MOST_NUMBERS],
            bytes: [0; MOST_NUMBERS],
            shorts: [0; MOST_NUMBERS],
        }
    }

    // Puts the next number; none where the line has no room for it.
    fn put(&mut self, x: u32) -> Option<()> {
        let k = self.count;
        if MOST_NUMBERS <= k {
            return None;
        }
        self.unsigned[k] = x;
        self.signed[k] = sheet_words::edge(x);
        self.bytes[k] = u8::try_from(x).unwrap_or(u8::MAX);
        self.shorts[k] = u16::try_from(x).unwrap_or(u16::MAX);
        self.count = k + 1;
        Some(())
    }

    // Reads the numbers of the first line of a text; a number ends at a space or at the line's end. Answers the text after the line, and
    // none where the line holds anything but numbers, more of them than it has room for, or no end.
    pub fn read<'a>(&mut self, text: &'a [u8]) -> Option<&'a [u8]>
        ensures { IfSome result (λ rest. length rest.now < length text.now) }
    {
        self.count = 0;
        let mut word = Word::BLANK;
        for (i, &c) in text.iter().enumerate() {
            if b' ' < c {
                word = word.grown(c)?;
                continue;
            }
            self.put(word.number())?;
            if c == b'\n' {
                return Some(&text[i + 1..]);
            }
            word = Word::BLANK;
        }
        None
    }

    pub fn count(&self) -> usize
        ensures { result ≤ 4096 }
    {
        self.count
    }

    pub fn unsigned(&self) -> &[u32] {
        &self.unsigned[..self.count]
    }

    pub fn signed(&self) -> &[i32] {
        &self.signed[..self.count]
    }

    pub fn bytes(&self) -> &[u8] {
        &self.bytes[..self.count]
    }

    pub fn shorts(&self) -> &[u16] {
        &self.shorts[..self.count]
    }

    // The number at a place, 0 where there is none.
    pub fn at(&self, i: usize) -> u32 {
        at(self.unsigned(), i)
    }

    pub fn edge_at(&self, i: usize) -> i32 {
        self.signed().get(i).copied().unwrap_or(0)
    }

    // The number at a place as a count, at most 4,096.
    pub fn count_at(&self, i: usize) -> usize
        ensures { result ≤ 4096 }
    {
        count_at(self.unsigned(), i)
    }
}

// The number at a place, 0 where there is none.
pub fn at(xs: &[u32], i: usize) -> u32 {
    xs.get(i).copied().unwrap_or(0)
}

// The number at a place as a count, at most 4,096.
pub fn count_at(xs: &[u32], i: usize) -> usize
    ensures { result ≤ 4096 }
{
    MOST_NUMBERS.min(at(xs, i) as usize)
}
