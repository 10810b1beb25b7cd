//! The rule that leaves one link empty.

ghost use Rattle.std.specs.Prelude.{◌≡◌, ℕ, ◌≤◌, min, MatchResult};
ghost use Rattle.refusals.specs.declared.Refusal.TheVariants.{NoLink};

use ring::Refusal;

/// Takes the route that does not hold a link; on a ring that has no such link, the route without its last link.
#[derive(Clone, Copy, Debug)]
pub struct ShutLink {
    link: u8,
    ghost low: { 1 ≤ link },
    ghost high: { link ≤ 16 },
}

impl ShutLink {
    /// The rule that shuts the link, which is 1 to 16; any other is refused.
    pub fn new(link: u8) -> Result<ShutLink, Refusal>
        ensures { MatchResult result (λ s. (s.link ≡ link) × (1 ≤ link) × (link ≤ 16)) (λ e. (e ≡ NoLink) × (1 ≤ link → link ≤ 16 → ⊥)) }
    {
        if !(1..=16).contains(&link) {
            return Err(Refusal::NoLink);
        }
        Ok(ShutLink { link })
    }

    /// The link that is shut on a ring of n nodes.
    pub(crate) fn shut_on(&self, n: u8) -> u8
        ensures { result ≡ min self.now.link n }
    {
        self.link.min(n)
    }
}
