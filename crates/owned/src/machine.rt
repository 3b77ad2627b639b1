// Terminals with owners, as a kind of terminal.
ghost use Rattle.std.specs.Prelude.{length};
ghost use Rattle.rules.specs.Limits.{limits};
ghost use Rattle.rules.specs.OwnedPlan.{owned_steps, read_owned};
ghost use Rattle.rules.proofs.OwnedPlan.{owned_refuses};
ghost use Rattle.owners.specs.View.{stored_owned};
ghost use Rattle.owned.specs.Found.{found_owned};
ghost use Rattle.owned.specs.Held.{owned_held};

use crate::comparing::same_owned;
use crate::finding::find_sections;
use owners::{run_in, standing};
use plan::{Found, Machine, Refused};
use rules::limits::MOST_REGIONS;
use rules::{Outcome, Refusal};
use zones::{CONFIG_WORDS, TABLE_WORDS};

#[derive(Clone, Copy)]
pub struct Owned<'a> {
    pub config: &'a [u64; CONFIG_WORDS],
    pub owners: &'a [u32; MOST_REGIONS],
}

impl Machine for Owned<'_> {
    ghost rule = { owned_steps limits };

    ghost config = { λ m. stored_owned m.config.now m.owners.now };

    ghost found = { λ b. found_owned (length b) (read_owned limits b) };

    ghost given = { λ m rs gic. owned_held rs gic m.config.now m.owners.now };

    fn find_sections(&self, plan: &[u8]) -> Result<Found, Refused> {
        find_sections(plan)
    }

    fn gives(&self, regions: &[u8], gic: u32) -> bool {
        same_owned(regions, gic, self.config, self.owners)
    }

    fn standing(&self, table: &[u64; TABLE_WORDS]) -> Result<(), Refusal> {
        standing(self.config, self.owners, table)
    }

    fn run_in(&self, table: &mut [u64; TABLE_WORDS], requests: &[u8]) -> Outcome {
        run_in(self.config, self.owners, table, requests)
    }

    ghost refuses = { owned_refuses limits };
}
