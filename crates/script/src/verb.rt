//! The first word of a command.
ghost use Rattle.std.specs.Prelude.{◌≡◌};
ghost use Rattle.script.specs.Commands.{verb_of};
ghost use Rattle.script.specs.Faults.{readable};

use crate::error::ParseError;

#[derive(Clone, Copy, PartialEq, Eq, Debug)]
pub(crate) enum Verb {
    Read,
    Setup,
    Make,
    Offer,
    Claim,
    Settle,
    Restart,
    Book,
    Row,
    State,
}

impl TryFrom<&[u8]> for Verb {
    type Error = ParseError;

    ghost try_from_gives = { λ word result. result ≡ readable (verb_of word.now) };

    fn try_from(word: &[u8]) -> Result<Verb, ParseError> {
        match word {
            b"read" => Ok(Verb::Read),
            b"setup" => Ok(Verb::Setup),
            b"make" => Ok(Verb::Make),
            b"offer" => Ok(Verb::Offer),
            b"claim" => Ok(Verb::Claim),
            b"settle" => Ok(Verb::Settle),
            b"restart" => Ok(Verb::Restart),
            b"book" => Ok(Verb::Book),
            b"row" => Ok(Verb::Row),
            b"state" => Ok(Verb::State),
            _ => Err(ParseError::Unreadable),
        }
    }
}
