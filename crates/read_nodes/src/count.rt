// A section's count.
ghost use Rattle.std.specs.Prelude.{◌≡◌, ◌≤◌};
ghost use Rattle.sheet.specs.Bytes.{word_at};
ghost use Rattle.sheet.specs.Refusal.{count_rows};
ghost use Rattle.sheet.specs.Told.{Told};

use sheet::Refusal;

// The count at a place, which is to be in a range.
#[tactic(auto, unfolding(sheet::specs::Refusal::first))]
pub fn count_refusal(s: &[u8], place: u32, least: u16, most: u16) -> Result<u16, Refusal>
    ensures { Told (count_rows s.now place least most) (λ n. (n ≡ word_at s.now place) × (n ≤ most)) result }
{
    let Some(n) = sheet::count_at(s, place) else {
        return Err(Refusal::BytesEnd(place));
    };
    if n < least || most < n {
        return Err(Refusal::CountOutside(place));
    }
    Ok(n)
}
