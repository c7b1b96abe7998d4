// Text in a buffer: bytes, words, numbers and lines, each stored behind what the buffer holds already.
ghost use Rattle.std.specs.Prelude.{[], ◌∷◌, ◌++◌, map};
ghost use Rattle.rules.specs.Text.{text};
ghost use Rattle.rules.specs.Listing.{line};
ghost use Rattle.lines.specs.Appended.{Room, Appended};

use itoa::{Buffer, Integer};

// A buffer whose first `length` bytes are text: the buffer is the caller's, so it is no array of its own.
// The room that is left is no field of it: each call asks for just the bytes that it appends.
#[derive(Drop)]
pub struct Text<'a> {
    pub buffer: &'a mut [u8],
    pub length: usize,
}

impl Text<'_> {
    pub fn push_byte(&mut self, byte: u8)
        requires { Room self.old (byte ∷ []) }
        ensures { Appended self.old self.new (byte ∷ []) }
    {
        self.buffer[self.length] = byte;
        self.length += 1;
    }

    pub fn push_word(&mut self, word: &[u8])
        requires { Room self.old word.now }
        ensures { Appended self.old self.new word.now }
    {
        let end = self.length + word.len();
        self.buffer[self.length..end].copy_from_slice(word);
        self.length = end;
    }

    // A number, as the kit prints it: its digits are those of the rules (proofs/Digits.antt).
    pub fn push_number<I: Integer>(&mut self, number: I)
        requires { Room self.old (I.text number) }
        ensures { Appended self.old self.new (I.text number) }
    {
        let mut buffer = Buffer::new();
        self.push_word(buffer.format(number).as_bytes());
    }

    // A field: a number behind a space.
    pub fn push_field<I: Integer>(&mut self, number: I)
        requires { Room self.old (text " " ++ I.text number) }
        ensures { Appended self.old self.new (text " " ++ I.text number) }
    {
        self.push_byte(b' ');
        self.push_number(number);
    }

    // A line: its first word, numbers, and the line feed.
    pub fn push_line<I: Integer + Copy>(&mut self, word: &[u8], numbers: &[I])
        requires { Room self.old (line word.now (map I.text numbers.now)) }
        ensures { Appended self.old self.new (line word.now (map I.text numbers.now)) }
    {
        self.push_word(word);
        for number in numbers {
            self.push_field(*number);
        }
        self.push_byte(b'\n');
    }
}
