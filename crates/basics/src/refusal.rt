// What it is to refuse: each part's refusals are an enum of its own, and each has a number of the page's. What is no refusal,
// an answer that may be 0, a kind, an origin or a mode, has its number by itself: nothing is written over them all.
ghost use Rattle.std.specs.Prelude.{◌≡◌, ◌≢◌, ℕ};

// Why a call refuses.
pub trait Refusal {
    ghost number_of: { Self → ℕ };

    // The page's number.
    fn number(self) -> u8
        ensures { result ≡ number_of self };

    // No refusal is taken for 0, which says that a call is done.
    ghost is_told: { (refusal : Self) → number_of refusal ≢ 0 };
}
