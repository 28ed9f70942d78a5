// The methods of the bus.

ghost use Rattle.std.specs.Prelude.{◌≡◌, map};
ghost use Rattle.std.specs.Char.{to_ascii_lowercase};
ghost use Rattle.bus_messages.specs.Introspection.{introspection_text};
ghost use Rattle.peers.specs.Answers.{UnlessShut};
ghost use Rattle.peers.specs.Queries.{RepliesText, RepliesDigits, RepliesMachineId, bus_id, credentials_of, user_found};
ghost use Rattle.peers.specs.Table.{Performs};

use crate::context::Context;
use crate::error::AnswerError;
use crate::peer::Peer;
use crate::refused::Refused;
use crate::request::Request;
use bus_messages::{Body, Call, ErrorName, introspection};
use router::{AskedTexts, BusBrand, Mailbox, RouteLists};
use std::sync::Wait;

/// What StartServiceByName answers of a name that has an owner (D-Bus Specification, DBUS_START_REPLY_ALREADY_RUNNING).
const ALREADY_RUNNING: u32 = 2;

impl<B: BusBrand, M: Mailbox> Peer<B, M> {
    /// Does what a call of the bus asks for, and answers it.
    ///
    /// # Errors
    ///
    /// `Slow` if the answer has no room, and `NoMemory`.
    pub(crate) fn perform<W: Wait, R: Wait + Drop>(
        &mut self,
        context: &Context<'_, B, M, W, R>,
        lists: &mut RouteLists,
        request: Request,
        call: Call<'_>,
    ) -> Result<(), AnswerError>
        ensures row { Performs M.outbox_of context.now.shares request call.entry self.old result self.new }
        ensures error { UnlessShut request.wants_answer result self.new }
    {
        match call {
            Call::Hello => self.refuse(context, request, Refused::Error(ErrorName::Failed)),
            Call::AddMatch(text) => self.add_match(context, request, text),
            Call::RemoveMatch(text) => self.remove_match(context, request, text),
            Call::Attach(edition, program) => self.attach(
                context,
                request,
                edition,
                program,
                AskedTexts::none(),
            ),
            Call::AttachFilter(text) => self.attach_filter(context, request, text),
            Call::Detach(id) => self.detach(context, request, id),
            Call::RequestName(name, flags) => self.request_name(
                context, lists, request, name, flags,
            ),
            Call::ReleaseName(name) => self.release_name(context, lists, request, name),
            Call::GetNameOwner(name) => self.get_name_owner(context, request, name),
            Call::NameHasOwner(name) => self.name_has_owner(context, request, name),
            Call::ListQueuedOwners(name) => self.list_queued_owners(context, request, name),
            Call::ListNames => self.list_names(context, request),
            Call::ListActivatableNames => self.answer_bus_name(context, request),
            Call::StartServiceByName(name) => {
                let found = Ok(Body::Number(ALREADY_RUNNING));
                let missing = ErrorName::ServiceUnknown;
                self.answer_of_owned(context, request, name, found, missing)
            }
            Call::GetConnectionUnixUser(name) => {
                let missing = ErrorName::NameHasNoOwner;
                let found = user_found(self.identity.user);
                self.answer_of_owned(context, request, name, found, missing)
            }
            Call::GetConnectionUnixProcessId(name) => {
                let missing = ErrorName::NameHasNoOwner;
                let unknown = Err(ErrorName::UnixProcessIdUnknown);
                self.answer_of_owned(context, request, name, unknown, missing)
            }
            Call::GetConnectionCredentials(name) => {
                let missing = ErrorName::NameHasNoOwner;
                let found = Ok(credentials_of(self.identity.user));
                self.answer_of_owned(context, request, name, found, missing)
            }
            Call::GetAdtAuditSessionData(name) => {
                let missing = ErrorName::NameHasNoOwner;
                let unknown = Err(ErrorName::AdtAuditDataUnknown);
                self.answer_of_owned(context, request, name, unknown, missing)
            }
            Call::GetConnectionSelinuxSecurityContext(name) => {
                let missing = ErrorName::NameHasNoOwner;
                let unknown = Err(ErrorName::SelinuxSecurityContextUnknown);
                self.answer_of_owned(context, request, name, unknown, missing)
            }
            Call::Ping => self.answer(context, request, Body::Nothing),
            Call::GetId => self.get_id(context, request),
            Call::GetMachineId => self.get_machine_id(context, request),
            Call::Introspect => self.introspect(context, request),
            Call::Get(property) => self.answer(context, request, Body::Property(property)),
            Call::GetAll => self.answer(context, request, Body::Properties),
            Call::GetAllOfNone => self.answer(context, request, Body::EmptyDict),
            Call::BecomeMonitor(rules, flags) => {
                self.become_monitor(context, lists, request, rules.as_slice(), flags)
            }
            Call::GetStats => self.get_stats(context, request),
            Call::GetConnectionStats(name) => self.get_connection_stats(context, request, name),
            Call::GetAllMatchRules => self.get_all_match_rules(context, request),
            Call::ReloadConfig => self.answer(context, request, Body::Nothing),
            Call::UpdateActivationEnvironment => self.answer(context, request, Body::Nothing),
        }
    }

    fn get_id<W: Wait, R: Wait + Drop>(
        &mut self,
        context: &Context<'_, B, M, W, R>,
        request: Request,
    ) -> Result<(), AnswerError>
        ensures row { RepliesDigits request (bus_id self.old.identity) self.old result self.new }
        ensures error { UnlessShut request.wants_answer result self.new }
    {
        let id = in_small_letters(self.identity.guid);
        self.answer_digits(context, request, id)
    }

    fn get_machine_id<W: Wait, R: Wait + Drop>(
        &mut self,
        context: &Context<'_, B, M, W, R>,
        request: Request,
    ) -> Result<(), AnswerError>
        ensures row { RepliesMachineId request self.old.identity.machine_id self.old result self.new }
        ensures error { UnlessShut request.wants_answer result self.new }
    {
        match self.identity.machine_id {
            Some(id) => self.answer_digits(context, request, id),
            None => self.refuse(context, request, Refused::Error(ErrorName::Failed)),
        }
    }

    fn answer_digits<W: Wait, R: Wait + Drop>(
        &mut self,
        context: &Context<'_, B, M, W, R>,
        request: Request,
        digits: [u8; 32],
    ) -> Result<(), AnswerError>
        ensures row { RepliesDigits request digits self.old result self.new }
        ensures error { UnlessShut request.wants_answer result self.new }
    {
        match str::from_utf8(&digits) {
            Ok(text) => self.answer_text(context, request, text),
            Err(_) => self.refuse(context, request, Refused::Error(ErrorName::Failed)),
        }
    }

    fn introspect<W: Wait, R: Wait + Drop>(
        &mut self,
        context: &Context<'_, B, M, W, R>,
        request: Request,
    ) -> Result<(), AnswerError>
        ensures row { RepliesText request introspection_text self.old result self.new }
        ensures error { UnlessShut request.wants_answer result self.new }
    {
        match introspection(context.alloc) {
            Ok(text) => self.answer_text(context, request, text.as_str()),
            Err(_) => self.refuse(context, request, Refused::Error(ErrorName::NoMemory)),
        }
    }
}

/// The number of the user that a client runs as, where it is known.
fn user_found(user: Option<u32>) -> Result<Body<'static>, ErrorName>
    ensures { result ≡ user_found user }
{
    match user {
        Some(number) => Ok(Body::Number(number)),
        None => Err(ErrorName::Failed),
    }
}

/// All that is known of a client.
fn credentials_of(user: Option<u32>) -> Body<'static>
    ensures { result ≡ credentials_of user }
{
    match user {
        Some(number) => Body::User(number),
        None => Body::EmptyDict,
    }
}

fn in_small_letters(mut id: [u8; 32]) -> [u8; 32]
    ensures { result ≡ map to_ascii_lowercase id }
{
    id.make_ascii_lowercase();
    id
}
