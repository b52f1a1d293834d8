// Masks: a bit for each function or node, from 1 on.
ghost use Rattle.std.specs.Prelude.{◌≡◌};
ghost use Rattle.masks.specs.Mask.{is_marked};

// Whether the mask marks f. Not covered, or 0, is not marked.
pub fn is_marked(mask: &[u8], f: u16) -> bool
    ensures { result ≡ is_marked mask.now f }
{
    let Some(place) = f.checked_sub(1) else {
        return false;
    };
    mask.get(usize::from(place / 8))
        .is_some_and(|byte| (*byte >> (place % 8)) & 1 == 1)
}
