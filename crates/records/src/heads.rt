// What a venue's and a pair's record begin with: the length of what follows, and the version.
ghost use Rattle.std.specs.Prelude.{◌≡◌, cond, not, ◌<◌, ltb, length};
ghost use Rattle.cells.specs.declared.Refusal.TheVariants.{Record, Version};
ghost use Rattle.cells.specs.Checks.{refuse_when, ◌then◌};
ghost use Rattle.records.specs.Heads.{length_field, announced, version_of, whole_check};

use cells::Refusal;

// The length that is announced, 0 where fewer than four bytes are there.
pub(crate) fn announced(s: &[u8]) -> usize
    ensures { (result ≡ cond (ltb (length s.now) length_field) 0 (announced s.now)) × (result < 4294967296) }
{
    if s.len() < 4 {
        0
    } else {
        buffers::four_at(s, 0)
    }
}

// The version, 0 where the record ends before it.
pub(crate) fn version_of(s: &[u8]) -> u8
    ensures { result ≡ version_of s.now }
{
    s.get(4).copied().unwrap_or(0)
}

// Refusal 10 where the record is cut short.
#[tactic(auto, unfolding(crate::specs::Heads::whole_check))]
fn check_whole(s: &[u8]) -> Result<(), Refusal>
    ensures { result ≡ whole_check s.now }
{
    let long = announced(s);
    if long == 0 || s.len() < 4 + long {
        return Err(Refusal::Record);
    }
    Ok(())
}

// Refusal 10 where the record is cut short, 11 unless its version is known, 10 where its length does not fit.
pub(crate) fn head_check(s: &[u8], known: bool, misfit: bool) -> Result<(), Refusal>
    ensures { result ≡ (whole_check s.now then refuse_when (not known) Version then refuse_when misfit Record) }
{
    check_whole(s)?;
    if !known {
        return Err(Refusal::Version);
    }
    if misfit {
        return Err(Refusal::Record);
    }
    Ok(())
}
