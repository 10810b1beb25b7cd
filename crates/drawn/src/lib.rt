//! What slotting means, and what is proved of it. The code that slots is in other crates, whose contracts cite these definitions; here are the
//! theorems on them, each as the contract of a function.
#![tactic(auto)]

ghost use Rattle.drawn.specs.Claims.{DrawsWell, DrawsBest, OverFirst, SlotsRise, RowsLoadLinks};

/// What the definitions mean in other words: slotting is first fit throughout, the slots of a demand rise, and the rows over a link are its load.
pub fn definitions_mean()
    ensures first { OverFirst }
    ensures rise { SlotsRise }
    ensures loads { RowsLoadLinks }
{}

/// Every lawful choice of sides draws a plan with no more slots than the heaviest cut's total, and so at most twice those of any rival.
pub fn lawful_choices_draw_well()
    ensures { DrawsWell }
{}

/// With the best link shut, no rival has fewer slots by more than its load on any one link.
pub fn best_link_draws_best()
    ensures { DrawsBest }
{}
