// Why an object gets no place: what each reason is called, and what to do about it.
ghost use Rattle.std.specs.Prelude.{◌≡◌};
ghost use Rattle.command_io.specs.Faults.{place_text};

use placement::PlaceRefusal;

// What a refusal of a placement is called.
pub fn place_name(refusal: PlaceRefusal) -> &'static str
    ensures { result.now ≡ place_text refusal }
{
    match refusal {
        PlaceRefusal::NoObject => "NoObject",
        PlaceRefusal::TooLarge => "TooLarge",
        PlaceRefusal::NoRoom => "NoRoom",
    }
}

/// What to do about a placement that is refused.
pub fn place_advice(refusal: PlaceRefusal) -> &'static str {
    match refusal {
        PlaceRefusal::NoObject => {
            "no object symbol of the trace has this name, and not exactly one block was allocated at \
             that address: name another object"
        }
        PlaceRefusal::TooLarge => "the object is larger than 16 MiB: name a smaller one",
        PlaceRefusal::NoRoom => {
            "the object's words do not fit between the last access and the end of the addresses: \
             name a smaller object"
        }
    }
}
