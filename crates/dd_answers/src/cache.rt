// A store as what answers a line.
use crate::lines::write_answer;
use crate::listing::say_rows;
use dd_block::Fingerprint;
use dd_loop::{Cache, Halt, Written};
use dd_model::Lists;
use dd_rig::Rig;
use dd_script::{Dialect, Line};
use dd_store::Store;

/// A store that answers the lines of a script.
#[derive(Drop)]
pub struct StoreCache<F: Fingerprint, L: Lists> {
    pub store: Store<F, L>,
}

impl<F: Fingerprint, L: Lists, R: Rig> Cache<R> for StoreCache<F, L> {
    ghost use Rattle.std.specs.Prelude.{◌≡◌};
    ghost use Rattle.dd_answers.specs.Answering.{store_terms, MayAnswer, KeptSince, StandsSince};
    ghost use Rattle.dd_answers.specs.Costs.{CostsLines};
    ghost use Rattle.dd_answers.specs.Laws.{kept_unsaid, answers_fewer, costs_none, costs_lists, costs_both, costs_idle, costs_cut, costs_begun};

    ghost terms = { λ c. store_terms (F.printed c.store.print) c.store.store };

    ghost ready = { λ c lines size. MayAnswer c.store.store lines size };

    ghost kept = { λ c first now committed held. KeptSince (F.printed c.store.print) c.store.store first now committed held };

    ghost stands = { λ terms first flash disk s. StandsSince terms.print first flash disk s };

    ghost costs = { λ old new lines more before after. CostsLines old.store.store new.store.store lines more before after };

    ghost does = { λ terms before after. Unit {0} };

    ghost leaves = { λ old new. Unit {0} };

    ghost stops = { λ device. Unit {0} };

    fn dialect(&self) -> Dialect {
        let geo = self.store.geometry();
        Dialect {
            reads_only: false,
            blocks: geo.blocks,
            block: geo.block,
        }
    }

    fn answer(
        &mut self,
        rig: &mut R,
        line: Line,
        block: &mut [u8],
        text: &mut [u8],
    ) -> Result<Option<Written>, Halt> {
        write_answer(&mut self.store, rig, line, block, text)
    }

    fn list(&self, rig: &mut R, text: &mut [u8]) -> Result<(), Halt> {
        say_rows(self.store.lists(), rig, text)
    }

    ghost stood = { λ c first now committed held kept flash disk flash_image disk_image. (kept.0, kept.1, kept.2.stands flash disk flash_image disk_image) };

    ghost unsaid = { λ c first old new committed held flash disk kept. (kept.0, kept.1, kept_unsaid kept.0 (F.printed c.store.print) c.store.store old new committed held flash disk kept.2) };

    ghost fewer = { λ c n m size le ready. answers_fewer c.store.store n m size le ready };

    ghost free = { λ c counts. costs_none c.store.store counts };

    ghost lists = { λ c entries prints counts. costs_lists c.store.store entries prints counts };

    ghost sums = { λ one two three lines others more p q r h k. costs_both one.store.store two.store.store three.store.store lines others more p q r h k };

    ghost idle = { λ one two lines more p q r flash disk h. costs_idle one.store.store two.store.store lines more p q r flash disk h };

    ghost cut = { λ one two line p q h. costs_cut one.store.store two.store.store line p q h };

    ghost begun = { λ one two lines p q h. costs_begun one.store.store two.store.store lines p q h };

    ghost does_none = { λ terms counts. tt };

    ghost does_both = { λ terms p q r h k. tt };

    ghost does_said = { λ terms p q r flash disk h. tt };

    ghost leaves_all = { λ world. tt };

    ghost leaves_both = { λ one two three h k. tt };

    ghost leaves_said = { λ one two three flash disk h. tt };
}
