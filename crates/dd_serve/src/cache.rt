// A scratch as what answers a line.
ghost use Rattle.std.specs.Prelude.{◌≡◌, ◌≤◌};

use crate::answering::write_answer;
use crate::scratch::Scratch;
use dd_answers::say_rows;
use dd_block::Fingerprint;
use dd_loop::{Cache, Halt, Written};
use dd_model::Lists;
use dd_rig::Rig;
use dd_script::{Dialect, Line};

/// A scratch that answers the lines of a script that only reads, with a buffer for a comparison.
#[derive(Drop)]
pub struct ScratchCache<F: Fingerprint, L: Lists> {
    pub scratch: Scratch<L>,
    pub print: F,
    pub other: Vec<u8>,
    /// Bytes of a block.
    pub block: u32,
    ghost same: { block ≡ scratch.slots.block },
    ghost small: { block ≤ 4096 },
}

impl<F: Fingerprint, L: Lists, R: Rig> Cache<R> for ScratchCache<F, L> {
    ghost use Rattle.std.specs.Prelude.{vec_len};
    ghost use Rattle.dd_serve.specs.Answering.{MayAnswer, HoldsState, StaysBy, CostsLines, IsFlash, scratch_terms};
    ghost use Rattle.dd_serve.specs.Calls.{OnlyBlocks};
    ghost use Rattle.dd_serve.specs.Scratch.{Scratched};
    ghost use Rattle.dd_serve.specs.Laws.{answers_fewer, costs_none, costs_lists, costs_both, costs_idle, costs_cut, costs_begun, holds_stood, holds_unsaid, only_none, only_both, only_said, scratched_self, scratched_both, scratched_said};

    ghost terms = { λ c. scratch_terms (F.printed c.print) c.scratch };

    ghost ready = { λ c lines size. MayAnswer c.scratch (vec_len c.other) lines size };

    ghost kept = { λ c first now committed held. HoldsState (F.printed c.print) c.scratch first now held };

    ghost stands = { λ terms first flash disk s. StaysBy first flash disk s };

    ghost costs = { λ old new lines more before after. CostsLines old.scratch new.scratch lines more before after };

    ghost does = { λ terms before after. OnlyBlocks terms.sizes.block before after };

    ghost leaves = { λ old new. Scratched old new };

    ghost stops = { λ device. IsFlash device };

    fn dialect(&self) -> Dialect {
        Dialect {
            reads_only: true,
            blocks: self.scratch.blocks(),
            block: self.block,
        }
    }

    fn answer(
        &mut self,
        rig: &mut R,
        line: Line,
        block: &mut [u8],
        text: &mut [u8],
    ) -> Result<Option<Written>, Halt> {
        write_answer(
            &mut self.scratch,
            rig,
            &self.print,
            line,
            block,
            &mut self.other,
            text,
        )
    }

    fn list(&self, rig: &mut R, text: &mut [u8]) -> Result<(), Halt> {
        say_rows(self.scratch.lists(), rig, text)
    }

    ghost stood = { λ c first now committed held kept. holds_stood (F.printed c.print) c.scratch first now committed held kept };

    ghost unsaid = { λ c first old new committed held flash disk kept. holds_unsaid (F.printed c.print) c.scratch first old new held flash disk kept };

    ghost fewer = { λ c n m size le ready. answers_fewer c.scratch (vec_len c.other) n m size le ready };

    ghost free = { λ c counts. costs_none c.scratch counts };

    ghost lists = { λ c entries prints counts. costs_lists c.scratch entries prints counts };

    ghost sums = { λ one two three lines others more p q r h k. costs_both one.scratch two.scratch three.scratch lines others more p q r h k };

    ghost idle = { λ one two lines more p q r flash disk h. costs_idle one.scratch two.scratch lines more p q r flash disk h };

    ghost cut = { λ one two line p q h. costs_cut one.scratch two.scratch line p q h };

    ghost begun = { λ one two lines p q h. costs_begun one.scratch two.scratch lines p q h };

    ghost does_none = { λ terms counts. only_none terms.sizes.block counts };

    ghost does_both = { λ terms p q r h k. only_both terms.sizes.block p q r h k };

    ghost does_said = { λ terms p q r flash disk h. only_said terms.sizes.block p q r flash disk h };

    ghost leaves_all = { λ world. scratched_self world };

    ghost leaves_both = { λ one two three h k. scratched_both one two three h k };

    ghost leaves_said = { λ one two three flash disk h. scratched_said one two three flash disk h };
}
