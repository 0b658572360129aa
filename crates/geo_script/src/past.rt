ghost use Rattle.std.specs.Prelude.{◌≡◌, length, OnOk};
ghost use Rattle.geo_script.specs.inner.Past as spec;

use crate::event::Event;
use crate::script::Form;
use geo_base::{NoMemory, RegionNo};
use std::alloc::Global;
use std::marker::Model;

/// What a run has had so far: the regions with a line that crashes them, and the sessions with statements.
#[derive(Drop)]
pub(crate) struct Past {
    crashed: Vec<RegionNo>,
    sessions: Vec<(RegionNo, u8)>,
}

impl Model for Past {
    ghost use Rattle.geo_script.specs.inner.Past.{RunPast};

    ghost Value = { RunPast };

    ghost view = { λ past. record { crashed = past.crashed.items; sessions = past.sessions.items } };
}

impl Past {
    /// Nothing yet.
    pub(crate) fn new(alloc: Global) -> Past
        ensures { result ≡ spec.nothing_yet }
    {
        Past {
            crashed: Vec::new(alloc),
            sessions: Vec::new(alloc),
        }
    }

    /// Whether the region has a line that crashes it. Looks at each one that has.
    pub(crate) fn has_crash(&self, region: RegionNo) -> bool
        ensures { result ≡ spec.has_crash self.now region }
    {
        self.crashed.iter().any(|crashed| region == *crashed)
    }

    /// Whether the session has a statement. Looks at each one that has.
    pub(crate) fn has_session(&self, region: RegionNo, session: u8) -> bool
        ensures { result ≡ spec.has_session self.now region session }
    {
        self.sessions
            .iter()
            .any(|known| region == known.0 && session == known.1)
    }

    /// How many sessions have statements.
    pub(crate) fn sessions(&self) -> usize
        ensures { result ≡ length self.now.sessions }
    {
        self.sessions.len()
    }

    /// One event more. Of a play nothing has to be known.
    pub(crate) fn add(&mut self, form: Form, event: &Event) -> Result<(), NoMemory>
        ensures { OnOk result (self.new ≡ spec.next_past form self.old event.now) }
    {
        match form {
            Form::Play => Ok(()),
            Form::Run => self.add_event(event),
        }
    }

    fn add_event(&mut self, event: &Event) -> Result<(), NoMemory>
        ensures { OnOk result (self.new ≡ spec.with_event self.old event.now) }
    {
        match event {
            Event::Sql {
                region,
                session,
                ..
            } => self.add_session(*region, *session),
            Event::CrashAfter { region, .. } => Ok(self.crashed.push(*region)?),
            _ => Ok(()),
        }
    }

    fn add_session(&mut self, region: RegionNo, session: u8) -> Result<(), NoMemory>
        ensures { OnOk result (self.new ≡ spec.with_session self.old region session) }
    {
        if !self.has_session(region, session) {
            self.sessions.push((region, session))?;
        }
        Ok(())
    }
}
