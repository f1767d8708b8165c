// Texts put together on a lent page: each goes on behind what the page holds, and a page that is full stays full.
#![tactic(auto)]

ghost use Rattle.std.specs.Prelude.{◌≡◌, ◌≤◌, length, take};
ghost use Rattle.pages.specs.Page.{Puts};
ghost use Rattle.pages.specs.Lines.{named, number_line, pair_line};
ghost use Rattle.numbers.specs.Text.{decimal, signed_decimal};

// `end` is the place behind the text, one past the page's end where it is full.
#[derive(Drop)]
pub struct Page<'a> {
    pub bytes: &'a mut [u8],
    pub end: usize,
}

impl<'a> Page<'a> {
    pub fn new(bytes: &'a mut [u8]) -> Page<'a>
        ensures same { result.bytes.ghost_name ≡ bytes.entry.ghost_name }
        ensures bytes { result.bytes.now ≡ bytes.old }
        ensures start { result.end ≡ 0 }
    {
        Page { bytes, end: 0 }
    }

    pub fn put_bytes(&mut self, text: &[u8])
        ensures { Puts self.old self.new text.now }
    {
        let at = self.end;
        if at > self.bytes.len() {
            return;
        }
        if text.len() > self.bytes.len() - at {
            self.end = self.bytes.len() + 1;
            return;
        }
        self.bytes[at..at + text.len()].copy_from_slice(text);
        self.end = at + text.len();
    }

    pub fn put_number(&mut self, n: u64)
        ensures { Puts self.old self.new (decimal n) }
    {
        // Stays: the bytes are proved, and `write!` promises nothing of them.
        let mut text = [0u8; 20];
        let k = io::decimal(n, &mut text);
        self.put_bytes(&text[..k]);
    }

    pub fn put_signed(&mut self, z: i64)
        ensures { Puts self.old self.new (signed_decimal z) }
    {
        if z < 0 {
            self.put_bytes(b"-");
        }
        self.put_number(z.unsigned_abs());
    }

    // The text that a page holds that is not full.
    pub fn text(&self) -> &[u8]
        requires { self.now.end ≤ length self.now.bytes.now }
        ensures { result.now ≡ take self.now.end self.now.bytes.now }
    {
        &self.bytes[..self.end]
    }

    // ---- parts of lines

    pub fn put_named(&mut self, word: &[u8], z: i64)
        ensures { Puts self.old self.new (named word.now z) }
    {
        self.put_bytes(word);
        self.put_signed(z);
    }

    pub fn put_line(&mut self, word: &[u8], n: u64)
        ensures { Puts self.old self.new (number_line word.now n) }
    {
        self.put_bytes(word);
        self.put_number(n);
        self.put_bytes(b"\n");
    }

    pub fn put_pair(&mut self, word: &[u8], m: u64, n: u64)
        ensures { Puts self.old self.new (pair_line word.now m n) }
    {
        self.put_bytes(word);
        self.put_number(m);
        self.put_line(b" ", n);
    }
}
