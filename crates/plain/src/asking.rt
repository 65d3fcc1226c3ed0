// What is picked of a board: the lowest identity among the targets whose found meeting time is least, or why there is none.
ghost use Rattle.std.specs.Prelude.{◌≡◌};
ghost use Rattle.plain.specs.Asking as spec;

use crate::call::Refusal;

// Document 01's number of a pick, 0 where a target is picked.
pub fn choice_number(choice: Result<u16, Refusal>) -> u8
    ensures { result ≡ spec.choice_number choice }
{
    match choice {
        Ok(_) => 0,
        Err(refusal) => refusal.number(),
    }
}

// The identity picked, 0 where there is none.
pub fn choice_identity(choice: Result<u16, Refusal>) -> u16
    ensures { result ≡ spec.choice_identity choice }
{
    match choice {
        Ok(identity) => identity,
        Err(_) => 0,
    }
}
