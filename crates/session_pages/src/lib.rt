// Text put on a page: a buffer that its owner writes out whenever it is nearly full. What is put on it stands behind what is there.
#![tactic(auto)]

ghost use Rattle.std.specs.Prelude.{◌≡◌, ◌+◌, ◌-◌, ◌<◌, ◌≤◌, length};
ghost use Rattle.io.specs.Digits.{last_digits, IsDigitCount};
ghost use Rattle.doubles.specs.Doubles.{bits_of};
ghost use Rattle.session_pages.specs.Page.{with_text, is_readable};

// A page, and how much of it has been put there.
#[derive(Drop)]
pub struct Page {
    pub text: [u8; 65536],
    pub len: usize,
    pub ghost within: { len ≤ 65536 },
}

impl Page {
    pub fn new() -> Self
        ensures { result.len ≡ 0 }
    {
        Page {
            text: [0; 65536],
            len: 0,
        }
    }

    pub fn put_text(&mut self, text: &[u8])
        requires { self.old.len + length text.now ≤ 65536 }
        ensures behind { self.new.len ≡ self.old.len + length text.now }
        ensures written { self.new.text ≡ with_text self.old.text self.old.len text.now }
    {
        let end = self.len + text.len();
        self.text[self.len..end].copy_from_slice(text);
        self.len = end;
    }

    // A number in decimal, with no zero in front.
    pub fn put_number(&mut self, n: u64)
        requires { self.old.len + 20 ≤ 65536 }
        ensures behind { (self.old.len < self.new.len) × (self.new.len ≤ self.old.len + 20) }
        ensures shortest { IsDigitCount 10 1 n (self.new.len - self.old.len) }
        ensures written { self.new.text ≡ with_text self.old.text self.old.len (last_digits 10 (self.new.len - self.old.len) n) }
    {
        let mut text = [0u8; 20];
        let k = io::decimal(n, &mut text);
        self.put_text(&text[..k]);
    }

    // A number as sixteen hexadecimal digits.
    pub fn put_hex(&mut self, n: u64)
        requires { self.old.len + 16 ≤ 65536 }
        ensures behind { self.new.len ≡ self.old.len + 16 }
        ensures written { self.new.text ≡ with_text self.old.text self.old.len (last_digits 16 16 n) }
    {
        let mut text = [0u8; 16];
        let k = io::hex(n, 16, &mut text);
        self.put_text(&text[..k]);
    }

    // The bits of a double, every NaN having the same.
    pub fn put_double(&mut self, x: f64)
        requires { self.old.len + 16 ≤ 65536 }
        ensures behind { self.new.len ≡ self.old.len + 16 }
        ensures written { self.new.text ≡ with_text self.old.text self.old.len (last_digits 16 16 (bits_of x)) }
    {
        self.put_hex(doubles::bits_of(x));
    }

    // A readable double with six places, the last one rounded to the nearest.
    pub fn put_fixed(&mut self, x: f64)
        requires { self.old.len + 48 ≤ 65536 }
        ensures { (self.old.len ≤ self.new.len) × (self.new.len ≤ self.old.len + 48) }
    {
        if x < 0.0 {
            self.put_text(b"-");
            self.put_size(-x);
        } else {
            self.put_size(x);
        }
    }

    // The millionths are put behind a million, whose own digit is left out, so that none of their zeros is.
    fn put_size(&mut self, size: f64)
        requires { self.old.len + 47 ≤ 65536 }
        ensures { (self.old.len ≤ self.new.len) × (self.new.len ≤ self.old.len + 47) }
    {
        let whole = down(size);
        let millionths = down((size - doubles::whole(whole)) * 1000000.0 + 0.5);
        let mut text = [0u8; 20];
        let k = io::decimal(1000000 + millionths % 1000000, &mut text);
        self.put_number(whole.wrapping_add(millionths / 1000000));
        self.put_text(b".");
        self.put_text(&text[1..k]);
    }
}

// ---- a double in decimal, for people: what is compared are its bits

// Whether a double lies between -2^53 and 2^53, so that its whole part has few digits and is exact. A NaN does not.
pub fn readable(x: f64) -> bool
    ensures { result ≡ is_readable x }
{
    -9007199254740992.0 < x && x < 9007199254740992.0
}

// The whole number below, and 0 where there is none.
fn down(x: f64) -> u64 {
    if x > -1.0 && x < 18446744073709551616.0 {
        std::num::truncating_f64_to_u64(x)
    } else {
        0
    }
}
