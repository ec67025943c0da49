// Both lists of rows, one row after the other.
ghost use Rattle.std.specs.Prelude.{◌≡◌, List, length, is_some, IsTrue};
ghost use Rattle.std.specs.Option.{ForSome};

use crate::row::{ARow, BRow};

/// The rows of both recency lists, front first.
///
/// Its meaning is the list of the A rows and the list of the B rows. A walk begins with None and
/// goes on with the address, or the slot, of the row that it got. It ends with None, exactly behind
/// the last row, where the rows' addresses and slots are distinct.
pub trait Rows {
    ghost use Rattle.dd_record.specs.declared.row.ARow.{ARow};
    ghost use Rattle.dd_record.specs.declared.row.BRow.{BRow};
    ghost use Rattle.dd_record.specs.Table.{a_row, b_row};
    ghost use Rattle.dd_record.specs.Listed.{a_walk, b_walk};

    /// The rows of the addresses.
    ghost a_rows: { Self → List ARow };

    /// The rows of the blocks.
    ghost b_rows: { Self → List BRow };

    fn len_a(&self) -> u32
        ensures { result ≡ length (a_rows self.now) };

    fn len_b(&self) -> u32
        ensures { result ≡ length (b_rows self.now) };

    /// The first row of an address, or the row behind that of a listed address.
    fn walk_a(&self, after: Option<u32>) -> Option<ARow>
        requires { ForSome after (λ address. IsTrue (is_some (a_row address (a_rows self.now)))) }
        ensures { result ≡ a_walk after (a_rows self.now) };

    /// The first row of a block, or the row behind that of a listed slot.
    fn walk_b(&self, after: Option<u32>) -> Option<BRow>
        requires { ForSome after (λ slot. IsTrue (is_some (b_row slot (b_rows self.now)))) }
        ensures { result ≡ b_walk after (b_rows self.now) };
}

#[cfg(test)]
mod tests {
    use super::*;
    use crate::row::Link;
    use dd_block::Fp;

    // Two addresses and a block.
    #[derive(Drop)]
    struct Three {
        first: ARow,
        second: ARow,
        block: BRow,
    }

    impl Rows for Three {
        ghost use Rattle.std.specs.Prelude.{[], ◌∷◌};

        ghost a_rows = { λ rows. rows.first ∷ rows.second ∷ [] };

        ghost b_rows = { λ rows. rows.block ∷ [] };

        fn len_a(&self) -> u32 {
            2
        }

        fn len_b(&self) -> u32 {
            1
        }

        fn walk_a(&self, after: Option<u32>) -> Option<ARow> {
            match after {
                None => Some(self.first),
                Some(address) => {
                    if address == self.first.address {
                        Some(self.second)
                    } else {
                        None
                    }
                }
            }
        }

        fn walk_b(&self, after: Option<u32>) -> Option<BRow> {
            match after {
                None => Some(self.block),
                Some(_) => None,
            }
        }
    }

    fn front<R: Rows>(rows: &R) -> Option<ARow> {
        rows.walk_a(None)
    }

    #[test]
    fn a_walk_from_the_front(rt: HostRuntime) {
        let fp = Fp([0; 32]);
        let first = ARow {
            address: 4,
            link: Link::Lost,
            dirty: false,
            fp,
        };
        let second = ARow {
            address: 2,
            ..first
        };
        let block = BRow { slot: 1, fp };
        let rows = Three {
            first,
            second,
            block,
        };
        assert_eq!(rt; front(&rows), Some(first));
        assert_eq!(rt; rows.walk_a(Some(4)), Some(second));
        assert_eq!(rt; rows.walk_a(Some(2)), None);
        assert_eq!(rt; rows.walk_b(Some(1)), None);
    }
}
