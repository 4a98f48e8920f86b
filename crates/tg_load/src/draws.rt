//! Commands drawn from a seed.
ghost use Rattle.std.specs.Prelude.{◌<◌};

use crate::opening::{GUEST, PRINCIPALS};
use std::alloc::{AllocError, Global};
use tg_rights::{Command, Kind, Name, Rights, Rule, Text};

/// Of this many rules one is an enrol, one a retire, one an assume and one a leave. It is a multiple of 7, so that the
/// others are drawn alike.
const RARELY: u64 = 700;

/// Numbers drawn by SplitMix64 from a seed.
#[derive(Drop)]
pub struct Draws {
    pub state: u64,
}

impl Draws {
    pub fn next(&mut self) -> u64 {
        self.state = self.state.wrapping_add(0x9E37_79B9_7F4A_7C15);
        let mut word = self.state;
        word = (word ^ (word >> 30)).wrapping_mul(0xBF58_476D_1CE4_E5B9);
        word = (word ^ (word >> 27)).wrapping_mul(0x94D0_49BB_1331_11EB);
        word ^ (word >> 31)
    }

    pub fn below(&mut self, bound: u64) -> u64
        requires { 0 < bound }
        ensures { result < bound }
    {
        self.next() % bound
    }

    pub fn rights(&mut self) -> Rights {
        match Rights::from_bits(self.below(16) as u8) {
            Some(rights) => rights,
            None => Rights::empty(),
        }
    }

    pub fn principal(&mut self) -> u64 {
        1 + self.below(PRINCIPALS)
    }

    pub fn rule(&mut self) -> Rule {
        match self.below(RARELY) {
            0 => Rule::Enrol,
            1 => Rule::Retire,
            2 => Rule::Assume,
            3 => Rule::Leave,
            drawn => match drawn % 7 {
                0 => Rule::Take,
                1 => Rule::Grant,
                2 => Rule::Create,
                3 => Rule::Remove,
                4 => Rule::Read,
                5 => Rule::Write,
                _ => Rule::Look,
            },
        }
    }
}

/// The rights over a subject with which one may act for it.
pub fn rights_to_act() -> Rights {
    Rights::take().union(Rights::grant())
}

/// A command, but for a write's text.
#[derive(Drop)]
pub struct Drawn {
    pub rule: Rule,
    /// What a create makes.
    pub kind: Kind,
    pub rights: Rights,
    pub over: u64,
    pub other: u64,
}

impl Drawn {
    /// A command of this rule, which names at most these rights and this vertex.
    pub fn about(rule: Rule, rights: Rights, over: u64) -> Drawn {
        Drawn {
            rule,
            kind: Kind::Document,
            rights,
            over,
            other: 0,
        }
    }

    /// The create of a subject for which its maker may act.
    pub fn of_agent() -> Drawn {
        Drawn {
            rule: Rule::Create,
            kind: Kind::Subject,
            rights: rights_to_act(),
            over: 0,
            other: 0,
        }
    }

    pub fn command(&self, alloc: Global) -> Result<Command, AllocError> {
        let Drawn {
            rule,
            kind,
            rights,
            over,
            other,
        } = *self;
        Ok(match rule {
            Rule::Take => Command::take(rights, over, other),
            Rule::Grant => Command::grant(rights, over, other),
            Rule::Create => Command::create(kind, rights),
            Rule::Remove => Command::remove(rights, over),
            Rule::Read => Command::read(over),
            Rule::Write => {
                let content = String::from_str(alloc, "written")?;
                let text = match Text::new(content) {
                    Ok(text) => text,
                    Err(_) => Text::empty(alloc),
                };
                Command::write(over, text)
            }
            Rule::Look => Command::look(over),
            Rule::Enrol => match Name::new(String::from_str(alloc, GUEST)?) {
                Ok(name) => Command::enrol(name, rights),
                Err(_) => Command::look(over),
            },
            Rule::Retire => Command::retire(),
            Rule::Assume => Command::assume(over),
            Rule::Leave => Command::leave(),
        })
    }
}
