// Bytes, and numbers in base ten, written into a lent buffer.
ghost use Rattle.std.specs.Prelude.{◌≡◌, ◌+◌, ◌%◌, ◌<◌, ◌≤◌, [], ◌∷◌, length, decimal};
ghost use Rattle.report.specs.Buffers.{Puts};

// A lent buffer, and the place up to which it is written.
// Stays a slice with a place: the place is how many bytes are written, which a report answers.
#[derive(Drop)]
pub(crate) struct Writer<'a> {
    out: &'a mut [u8],
    at: usize,
}

// How many digits a number has.
pub(crate) fn digits(n: usize) -> usize
    ensures { (result ≡ length (decimal n)) × (result ≤ 20) }
{
    if n < 10 { 1 } else { digits(n / 10) + 1 }
}

// Writes the last digit of a number at a place, and answers the place past it.
fn put_digit(out: &mut [u8], at: usize, n: usize) -> usize
    requires { at < length out.old }
    ensures { Puts ((48 + n % 10) ∷ []) at out.old out.new result }
{
    out[at] = b'0' + (n % 10) as u8;
    at + 1
}

// Writes a number at a place, and answers the place past it.
// Stays written digit by digit: std's clauses of `write!` say what was written on an Ok, and never that it is Ok.
// Stays with the place handed on: a writer would store it for each digit, and the next one would wait for that.
fn put_number(out: &mut [u8], at: usize, n: usize) -> usize
    requires { at + length (decimal n) ≤ length out.old }
    ensures { Puts (decimal n) at out.old out.new result }
{
    if n < 10 {
        return put_digit(out, at, n);
    }
    let next = put_number(out, at, n / 10);
    put_digit(out, next, n)
}

impl<'a> Writer<'a> {
    ghost use Rattle.report.specs.Writers.{HasRoom, Writes};

    pub(crate) fn new(out: &'a mut [u8]) -> Writer<'a>
        ensures same { result.out.ghost_name ≡ out.entry.ghost_name }
        ensures buffer { result.out.now ≡ out.old }
        ensures start { result.at ≡ 0 }
    {
        Writer { out, at: 0 }
    }

    // How many bytes are written.
    pub(crate) fn len(&self) -> usize
        ensures { result ≡ self.now.at }
    {
        self.at
    }

    // Writes bytes.
    // Stays beside its twin for book files: a shared one, as a public call, would have no `requires`, and so an Err that never comes.
    pub(crate) fn put(&mut self, bytes: &[u8])
        requires { HasRoom bytes.now self.old }
        ensures { Writes bytes.now self.old self.new }
    {
        let end = self.at + bytes.len();
        self.out[self.at..end].copy_from_slice(bytes);
        self.at = end;
    }

    // Writes one byte.
    pub(crate) fn put_byte(&mut self, byte: u8)
        requires { HasRoom (byte ∷ []) self.old }
        ensures { Writes (byte ∷ []) self.old self.new }
    {
        self.out[self.at] = byte;
        self.at += 1;
    }

    // Writes a number.
    pub(crate) fn put_number(&mut self, n: usize)
        requires { HasRoom (decimal n) self.old }
        ensures { Writes (decimal n) self.old self.new }
    {
        self.at = put_number(self.out, self.at, n);
    }
}
