use crate::endings::Ending;
use ck_journal::{KeptObject, View};
use ck_objects::{Attribute, KeyState, Record, Template};
use ck_types::NoMemory;
use std::marker::Model;

/// An object that hasn't ended.
#[derive(Drop)]
pub(crate) struct StoredObject {
    number: u64,
    attributes: Record,
    /// The session that created it; a token object belongs to no session.
    session: Option<u64>,
}

impl Model for StoredObject {
    ghost use Rattle.std.specs.Prelude.{◌<◌, ◌^◌};
    ghost use Rattle.ck_store.specs.Rows.{ObjectRow};

    ghost Value = { ObjectRow };

    ghost view = { λ o. record {
      number = o.number;
      session = o.session;
      attributes = o.attributes;
    } };

    ghost invariant = { λ o. o.number < 2 ^ 32 };
}

impl StoredObject {
    ghost use Rattle.std.specs.Prelude.{◌≡◌, ◌<◌, ◌^◌, None, IfOk};
    ghost use Rattle.ck_objects.specs.Records.{with_given, with_state};
    ghost use Rattle.ck_journal.specs.Objects.{is_visible_with};
    ghost use Rattle.ck_store.specs.Rows.{object_row, is_private_row, is_match, visible_handle};
    ghost use Rattle.ck_store.specs.Rows.{is_ended_by, kept_of, PassesChange};

    /// A new object. A session object is this session's, a token object is no session's.
    pub(crate) fn new(number: u64, session: u64, attributes: Record) -> StoredObject
        requires { number < 2 ^ 32 }
        ensures { result ≡ object_row number session attributes }
    {
        let is_token_object = attributes.is_set(Attribute::Token);
        let session = (!is_token_object).then_some(session);
        StoredObject {
            number,
            session,
            attributes,
        }
    }

    /// Its number: that of the creation that made it.
    pub(crate) fn number(&self) -> u64
        ensures { result ≡ self.now.number }
    {
        self.number
    }

    /// Its attributes.
    pub(crate) fn attributes(&self) -> &Record
        ensures { result.now ≡ self.now.attributes }
    {
        &self.attributes
    }

    /// Gives the object the values of a change.
    pub(crate) fn change(&mut self, values: Template)
        requires { PassesChange values.items self.old }
        ensures others { self.new ≡ record self.old { attributes = self.new.attributes } }
        ensures given { self.new.attributes ≡ with_given values.items self.old.attributes }
        ensures private { is_private_row self.new ≡ is_private_row self.old }
    {
        self.attributes.change(values);
    }

    /// Gives a key another state.
    pub(crate) fn set_state(&mut self, state: KeyState)
        ensures { self.new ≡ record self.old { attributes = with_state state self.old.attributes } }
    {
        self.attributes.set_state(state);
    }

    /// Whether a view shows it: a private object only while the normal user is logged in.
    fn is_visible(&self, view: View) -> bool
        ensures { result ≡ is_visible_with view self.now.attributes }
    {
        !self.is_private() || view.is_user_in
    }

    /// The object's handle, where it is visible.
    pub(crate) fn handle(&self, view: View) -> Option<u64>
        requires { view.logins < 2 ^ 31 }
        ensures { result ≡ visible_handle view self.now }
    {
        self.is_visible(view)
            .then_some(view.handle(&self.attributes, self.number))
    }

    /// Whether the object is visible and matches the template.
    pub(crate) fn is_match(&self, view: View, template: &Template) -> bool
        ensures { result ≡ is_match view template.now.items self.now }
    {
        self.is_visible(view) && self.attributes.matches(template)
    }

    /// Whether it is private (CKA_PRIVATE).
    pub(crate) fn is_private(&self) -> bool
        ensures { result ≡ is_private_row self.now }
    {
        self.attributes.is_set(Attribute::Private)
    }

    /// Whether it is a session object that the ending ends.
    pub(crate) fn is_ended_by(&self, ending: Ending) -> bool
        ensures { result ≡ is_ended_by ending self.now }
    {
        match ending {
            Ending::Session(session) => self.session == Some(session),
            Ending::AllSessions => self.session.is_some(),
            Ending::Logout => self.session.is_some() && self.is_private(),
        }
    }

    /// The session that created it, where it is a session object.
    pub(crate) fn session(&self) -> Option<u64>
        ensures { result ≡ self.now.session }
    {
        self.session
    }

    /// A copy of the object as a base has it.
    pub(crate) fn kept(&self) -> Result<KeptObject, NoMemory>
        ensures { IfOk result (λ kept. kept ≡ kept_of self.now) }
    {
        let attributes = self.attributes.clone()?;
        Ok(KeptObject {
            number: self.number,
            attributes,
        })
    }
}
