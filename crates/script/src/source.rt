//! Where a script is read from.
ghost use Rattle.std.specs.Prelude.{◌≡◌, IfOk, is_none};
ghost use Rattle.either.specs.Either.{is_left};

use anyhow::anyhow;
use either::Either;
use std::fs::File;
use std::io::Stdin;

/// Standard input, or a file.
pub type Source = Either<Stdin, File>;

/// The file of a name, or standard input where none is given.
pub fn open_script(rt: &HostRuntime, name: Option<String>) -> anyhow::Result<Source>
    ensures { IfOk result (λ source. is_left source ≡ is_none name) }
{
    let Some(name) = name else {
        return Ok(Either::Left(rt.stdin()));
    };
    match File::open(rt, name.as_str()) {
        Ok(file) => Ok(Either::Right(file)),
        Err(fault) => Err(anyhow!(format!(in rt.alloc(); "{name}: {fault}")?)),
    }
}
