//! What sessions and readers ask of a region.
ghost use Rattle.std.specs.Prelude.{◌≡◌, ◌<◌, ◌++◌, OnOk, string_bytes};
ghost use Rattle.geo_base.specs.declared.limits.TheConstants.{SESSIONS_PER_REGION};
ghost use Rattle.geo_world.specs.World.{World as WorldState, session_of};
ghost use Rattle.geo_world.specs.World as state;
ghost use Rattle.geo_world.specs.Step.{says, sql, run_statement, show};
ghost use Rattle.geo_world.specs.Lines as lines;
ghost use Rattle.world_script.specs.declared.event.Statement.{Statement};
ghost use Rattle.world_script.specs.declared.event.Statement.TheVariants as statement;

use super::World;
use crate::printing::{
    print_answer, print_changed_one, print_duplicate, print_session_waits, print_shown,
};
use crate::rows::{candidate_of, image_of, row_of};
use crate::session::Session;
use crate::sessions::session_state;
use geo_base::{NoMemory, RegionNo};
use world_script::Statement;

impl World {
    ghost use Rattle.geo_world.specs.inner.Standing.{StandsFor, IsSomeWorld, Makes, region_count};

    /// Shows what a region has published.
    pub(super) fn show(&self, out: &mut String, number: RegionNo) -> Result<(), NoMemory>
        requires { number < region_count self.now }
        ensures { (w : WorldState) → StandsFor w self.now →
            OnOk result (Makes (show w number) (string_bytes out.old) (string_bytes out.new) self.now) }
    {
        let plain = &self.regions[number as usize].plain;
        print_shown(out, number, plain.epoch(), plain)
    }

    /// Runs a statement of a session, which may be waiting.
    pub(super) fn run(
        &mut self,
        out: &mut String,
        number: RegionNo,
        session: u8,
        statement: Statement,
    ) -> Result<(), NoMemory>
        requires region { number < region_count self.old }
        requires session { session < SESSIONS_PER_REGION }
        requires stands { IsSomeWorld self.old }
        ensures count { region_count self.new ≡ region_count self.old }
        ensures step { (w : WorldState) → StandsFor w self.old →
            OnOk result (Makes (sql w number session statement (session_of w number session)) (string_bytes out.old) (string_bytes out.new) self.new) }
    {
        let region = &self.regions[number as usize];
        match session_state(&region.sessions, session) {
            Session::Pending(ticket) => print_session_waits(out, number, session, ticket),
            Session::Idle => self.run_statement(out, number, session, statement),
        }
    }

    /// Runs a statement of a session that is idle.
    fn run_statement(
        &mut self,
        out: &mut String,
        number: RegionNo,
        session: u8,
        statement: Statement,
    ) -> Result<(), NoMemory>
        requires region { number < region_count self.old }
        requires session { session < SESSIONS_PER_REGION }
        requires stands { IsSomeWorld self.old }
        ensures count { region_count self.new ≡ region_count self.old }
        ensures step { (w : WorldState) → StandsFor w self.old → session_of w number session ≡ state.Idle →
            OnOk result (Makes (run_statement w number session statement) (string_bytes out.old) (string_bytes out.new) self.new) }
    {
        match statement {
            Statement::Insert { key, value } => self.insert(out, number, session, key, value),
            Statement::Select => self.select(out, number, session),
        }
    }

    /// Answers a session all rows that its region has published.
    fn select(&self, out: &mut String, number: RegionNo, session: u8) -> Result<(), NoMemory>
        requires { number < region_count self.now }
        ensures { (w : WorldState) → StandsFor w self.now →
            OnOk result (Makes (run_statement w number session statement.Select) (string_bytes out.old) (string_bytes out.new) self.now) }
    {
        print_answer(out, number, session, &self.regions[number as usize].plain)
    }

    /// Takes the insert of an idle session as a candidate, unless its row is there.
    fn insert(
        &mut self,
        out: &mut String,
        number: RegionNo,
        session: u8,
        key: i64,
        value: i64,
    ) -> Result<(), NoMemory>
        requires region { number < region_count self.old }
        requires session { session < SESSIONS_PER_REGION }
        requires stands { IsSomeWorld self.old }
        ensures count { region_count self.new ≡ region_count self.old }
        ensures step { (w : WorldState) → StandsFor w self.old → session_of w number session ≡ state.Idle →
            OnOk result (Makes (run_statement w number session (statement.Insert key value)) (string_bytes out.old) (string_bytes out.new) self.new) }
    {
        let alloc = self.alloc;
        let image = image_of(alloc, key, value)?;
        let row = row_of(alloc, &self.schema, &image)?;
        let region = &self.regions[number as usize];
        if region.has_row(&row) {
            return print_duplicate(out, number, session, &row);
        }
        let start = region.plain.epoch();
        let candidate = candidate_of(alloc, start, row, image)?;
        let ticket = self.regions[number as usize].take(number, session, candidate)?;
        print_changed_one(out, number, session, ticket)
    }
}
