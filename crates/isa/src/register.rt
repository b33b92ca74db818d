// A register's number, from 0 to 15.
ghost use Rattle.std.specs.Prelude.{◌≡◌, ◌<◌};

/// One of the sixteen registers, by its number.
// The bound is a ghost field and not part of a model: with a model inside it an instruction, which is `Copy`, could not be used twice.
#[derive(Clone, Copy, PartialEq, Eq, Debug)]
pub struct Register {
    number: u8,
    ghost small: { number < 16 },
}

impl Register {
    ghost use Rattle.isa.specs.Registers.{register_at, numbered};

    /// The register with a number, or none above 15.
    // It is not `TryFrom`: there is nothing to say of a number that names none, as with std's `char::from_digit`.
    pub fn new(number: u32) -> Option<Register>
        ensures { result ≡ numbered number }
    {
        // by hand: loops of calls took a quarter to three quarters longer by `bool::then`
        if number < 16 {
            Some(Register::of_low_bits(number))
        } else {
            None
        }
    }

    /// The register that the four lowest bits name.
    // It is not `From`, since it drops bits.
    pub fn of_low_bits(bits: u32) -> Register
        ensures { result ≡ register_at bits }
    {
        Register {
            number: (bits % 16) as u8,
        }
    }

    /// Its number.
    pub fn number(self) -> u8
        ensures value { result ≡ self.number }
        ensures bound { result < 16 }
    {
        self.number
    }
}

impl From<Register> for u8 {
    ghost from_gives = { λ register number. (number ≡ register.number) × (number < 16) };

    fn from(register: Register) -> u8 {
        register.number()
    }
}
