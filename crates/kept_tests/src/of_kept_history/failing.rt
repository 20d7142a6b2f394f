//! Which system calls fail.

/// Which calls fail, counted from 0: one, and another one and all after it. A program whose calls
/// all fail from one on does what a program that is killed there does: nothing.
#[derive(Clone, Copy)]
pub(crate) struct Failing {
    pub(crate) once: u32,
    pub(crate) from: u32,
}

impl Failing {
    pub(crate) const NEVER: Failing = Failing {
        once: u32::MAX,
        from: u32::MAX,
    };

    pub(crate) fn once(call: u32) -> Failing {
        Failing {
            once: call,
            ..Failing::NEVER
        }
    }

    pub(crate) fn from(call: u32) -> Failing {
        Failing {
            from: call,
            ..Failing::NEVER
        }
    }

    pub(crate) fn fails(self, call: u32) -> bool {
        call == self.once || call >= self.from
    }
}

fn number(digits: &[u8]) -> u32 {
    let mut number = 0u32;
    for digit in digits {
        number = number
            .wrapping_mul(10)
            .wrapping_add(u32::from(digit.wrapping_sub(b'0')));
    }
    number
}

/// The calls that a row names: `3`, that one; `3 7`, that one, and the other and all after it;
/// nothing, none.
pub(crate) fn failing_calls(text: &[u8]) -> Failing {
    let mut words = text.split(|b| *b == b' ');
    let first = words.next().unwrap_or(b"");
    if first.is_empty() {
        return Failing::NEVER;
    }
    match words.next() {
        None => Failing::once(number(first)),
        Some(from) => Failing {
            once: number(first),
            from: number(from),
        },
    }
}
