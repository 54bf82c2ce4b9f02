use super::Token;
use crate::decisions::{Decision, Refused};
use ck_journal::{Body, number_of_handle};
use ck_objects::Template;
use ck_parts::Change;
use ck_types::{NoMemory, Rv, RvError, Sequence, error_if};
use std::alloc::Global;

/// Searching for objects (PKCS #11 Base 3.0, Object management functions).
impl Token {
    ghost use Rattle.std.specs.Prelude.{◌≡◌, false, IfOk, OnErr, filter, map, take};
    ghost use Rattle.ck_journal.specs.Lists.{is_empty};
    ghost use Rattle.ck_journal.specs.Objects.{handle_of, is_visible};
    ghost use Rattle.ck_journal.specs.declared.calls.Call.TheVariants as call;
    ghost use Rattle.ck_token.specs.Decisions.{IsDecision};

    /// C_FindObjectsInit. Checks: CKR_SESSION_HANDLE_INVALID (b3), CKR_OPERATION_ACTIVE (90).
    pub(super) fn find_objects_init(
        &self,
        alloc: Global,
        session: u64,
        template: &Template,
    ) -> Result<Decision, Refused>
        ensures { IsDecision self.now.limits self.now.history
            (call.FindObjectsInit session template.now) result }
    {
        let row = self.session(session)?;
        error_if(row.is_searching(), RvError::OperationActive)?;
        let found = self.parts.objects.find(alloc, self.view(), template)?;
        let found = Some(Sequence::from_vec(found));
        Ok(Decision::of_change(Change::SetSearch { session, found }))
    }

    /// C_FindObjects. Checks: CKR_SESSION_HANDLE_INVALID (b3), CKR_OPERATION_NOT_INITIALIZED (91).
    pub(super) fn find_objects(
        &self,
        alloc: Global,
        session: u64,
        max: u64,
    ) -> Result<Decision, Refused>
        ensures { IsDecision self.now.limits self.now.history
            (call.FindObjects session max) result }
    {
        let row = self.session(session)?;
        let numbers = row
            .remaining_objects()
            .ok_or(RvError::OperationNotInitialized)?;
        let handles = self.visible_handles(alloc, numbers, max)?;
        // The number is read off the last handle, so that the numbers need no list of their own.
        let number = match handles.last() {
            Some(handle) => number_of_handle(*handle),
            None => row.last_found(),
        };
        Ok(Decision {
            rv: Rv::Ok,
            body: Body::Handles(Sequence::from_vec(handles)),
            change: Change::AdvanceSearch { session, number },
        })
    }

    /// The handles of those objects of these numbers that are visible, of the first `max` of them.
    /// Where there is none, this takes no memory.
    fn visible_handles(
        &self,
        alloc: Global,
        numbers: &[u64],
        max: u64,
    ) -> Result<Vec<u64>, NoMemory>
        ensures handles { IfOk result (λ handles.
            handles.items ≡ map (handle_of self.now.history)
            (take max (filter (is_visible self.now.history) numbers.now))) }
        ensures memory { OnErr result
            (is_empty (take max (filter (is_visible self.now.history) numbers.now)) ≡ false) }
    {
        let view = self.view();
        let mut handles = Vec::new(alloc);
        let mut left = max;
        // A loop, since no clause of a `collect` says when it is out of memory.
        for number in numbers {
            if left == 0 {
                break;
            }
            if let Some(handle) = self.parts.objects.handle(view, *number) {
                handles.push(handle)?;
                left -= 1;
            }
        }
        Ok(handles)
    }

    /// C_FindObjectsFinal. Checks: CKR_SESSION_HANDLE_INVALID (b3), CKR_OPERATION_NOT_INITIALIZED
    /// (91).
    pub(super) fn find_objects_final(&self, session: u64) -> Result<Decision, Refused>
        ensures { IsDecision self.now.limits self.now.history
            (call.FindObjectsFinal session) result }
    {
        let row = self.session(session)?;
        error_if(!row.is_searching(), RvError::OperationNotInitialized)?;
        Ok(Decision::of_change(Change::SetSearch {
            session,
            found: None,
        }))
    }
}
