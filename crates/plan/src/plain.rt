// Document 01's terminals.
ghost use Rattle.std.specs.Prelude.{length};
ghost use Rattle.rules.specs.Applying.{plain_steps};
ghost use Rattle.rules.specs.Limits.{limits};
ghost use Rattle.rules.specs.Plan.{read_plan};
ghost use Rattle.rules.proofs.Plan.{plan_refuses};
ghost use Rattle.zones.specs.View.{stored_config};
ghost use Rattle.plan.specs.Found.{found_in};
ghost use Rattle.plan.specs.Held.{config_held};

use crate::comparing::same_config;
use crate::finding::{Found, find_sections};
use crate::machine::Machine;
use crate::refused::Refused;
use rules::{Outcome, Refusal};
use zones::{CONFIG_WORDS, TABLE_WORDS, run_in, standing};

#[derive(Clone, Copy)]
pub struct Plain<'a> {
    pub config: &'a [u64; CONFIG_WORDS],
}

impl Machine for Plain<'_> {
    ghost rule = { plain_steps limits };

    ghost config = { λ m. stored_config m.config.now };

    ghost found = { λ b. found_in (length b) (read_plan limits b) };

    ghost given = { λ m rs gic. config_held rs gic m.config.now };

    fn find_sections(&self, plan: &[u8]) -> Result<Found, Refused> {
        find_sections(plan)
    }

    fn gives(&self, regions: &[u8], gic: u32) -> bool {
        same_config(regions, gic, self.config)
    }

    fn standing(&self, table: &[u64; TABLE_WORDS]) -> Result<(), Refusal> {
        standing(self.config, table)
    }

    fn run_in(&self, table: &mut [u64; TABLE_WORDS], requests: &[u8]) -> Outcome {
        run_in(self.config, table, requests)
    }

    ghost refuses = { plan_refuses limits };
}
