//! Laws of every history that is legal from a sound base, and of what calls and cuts make of it, in
//! any order and however often. Each function's contract is one law; the function takes nothing and
//! does nothing. A front is the history as it stands between two calls; "just before" means at the
//! front that a call found.
ghost use Rattle.ck_journal.specs.KeyLaws.{
  CopiesKeepTheRest,
  CopiesStayHidden,
  CopiesStayPrivate,
  CopiesStaySensitive,
  CopiesStayUnextractable,
  HiddenValuesAreNotFound,
  HiddenValuesAreNotGiven,
  OperationsStartWithUsableKeys,
  SignaturesAreOfTheKey,
  SigningKeysMaySign,
  UncopyableObjectsAreNotCopied,
  VerifyingKeysMayVerify,
};
ghost use Rattle.ck_journal.specs.Laws.{
  ChangesOfPinsNeedThePin,
  InitializationsNeedThePin,
  LoginsNeedThePin,
  OnlyNamedObjectsChange,
  PinsStay,
  PrivateAttributesAreGivenToTheUser,
  PrivateHandlesAreReturnedToTheUser,
  PrivateObjectsAreNamedByTheUser,
  PrivateObjectsAreVisibleToTheUser,
  ReturnedHandlesNameObjects,
  SearchesReturnMatches,
  SessionObjectsHaveOpenSessions,
  TokenObjectsAreCreatedInReadWriteSessions,
  TokenObjectsAreWrittenInReadWriteSessions,
  TokenObjectsEndByName,
  TriesAreAtMostThree,
  UndestroyableObjectsAreNotDestroyed,
  UserPinsAreSetByTheOfficer,
};
ghost use Rattle.ck_journal.specs.LawsOverEvents.{
  AlwaysSensitiveIsTrue,
  DestroyedHandlesNameNothing,
  EndedObjectsStayEnded,
  HandlesAreNotZero,
  HandlesNameOneObject,
  HiddenStays,
  KeyStatesNeverGoBack,
  LockedOfficersStayLocked,
  NeverExtractableIsTrue,
  NewObjectsHaveNewHandles,
  ObjectHandlesAreGivenOnce,
  PrivateKeysServeTheUser,
  PrivateStays,
  ReadOnlyAttributesStay,
  SensitiveStays,
  SessionHandlesAreGivenOnce,
  UnextractableStays,
  UnmodifiableObjectsStay,
};

/// A handle names at most one object, at one front and over all.
pub fn handles_name_one_object()
    ensures { HandlesNameOneObject }
{}

/// A creation returns no handle that has named an object before.
pub fn new_objects_have_new_handles()
    ensures { NewObjectsHaveNewHandles }
{}

/// No two creations of objects return one handle.
pub fn object_handles_are_given_once()
    ensures { ObjectHandlesAreGivenOnce }
{}

/// Every handle of an object that an entry returns names an object just after it.
pub fn returned_handles_name_objects()
    ensures { ReturnedHandlesNameObjects }
{}

/// The handles that C_FindObjects returns name, just before, objects that the search found when it
/// started and hasn't returned, in ascending order of their numbers, and are at most as many as
/// were asked for.
pub fn searches_return_matches()
    ensures { SearchesReturnMatches }
{}

/// No two sessions are given one handle.
pub fn session_handles_are_given_once()
    ensures { SessionHandlesAreGivenOnce }
{}

/// No object and no session is given handle 0.
pub fn handles_are_not_zero()
    ensures { HandlesAreNotZero }
{}

/// An object that has ended doesn't come back.
pub fn ended_objects_stay_ended()
    ensures { EndedObjectsStayEnded }
{}

/// The handle of a C_DestroyObject that was answered CKR_OK never names an object again.
pub fn destroyed_handles_name_nothing()
    ensures { DestroyedHandlesNameNothing }
{}

/// A login is answered CKR_OK only with the user's PIN, and only where the user isn't locked.
pub fn logins_need_the_pin()
    ensures { LoginsNeedThePin }
{}

/// An initialization of a token that is initialized is answered CKR_OK only with the security
/// officer's PIN, and only where the security officer isn't locked.
pub fn initializations_need_the_pin()
    ensures { InitializationsNeedThePin }
{}

/// A C_SetPIN is answered CKR_OK only with the old PIN of the user whose PIN it sets, and only
/// where that user isn't locked.
pub fn changes_of_pins_need_the_pin()
    ensures { ChangesOfPinsNeedThePin }
{}

/// A C_InitPIN is answered CKR_OK only where the security officer is logged in.
pub fn user_pins_are_set_by_the_officer()
    ensures { UserPinsAreSetByTheOfficer }
{}

/// A user's PIN changes only at an initialization of the token, the security officer's only at the
/// first; at a C_InitPIN, the normal user's; and at a C_SetPIN, that of the session's user.
pub fn pins_stay()
    ensures { PinsStay }
{}

/// No user has more than three wrong tries.
pub fn tries_are_at_most_three()
    ensures { TriesAreAtMostThree }
{}

/// A locked security officer of an initialized token stays locked.
pub fn locked_officers_stay_locked()
    ensures { LockedOfficersStayLocked }
{}

/// As long as a session object hasn't ended, its session is open.
pub fn session_objects_have_open_sessions()
    ensures { SessionObjectsHaveOpenSessions }
{}

/// The attributes of an object change only where a C_SetAttributeValue or a SetKeyState names it.
pub fn only_named_objects_change()
    ensures { OnlyNamedObjectsChange }
{}

/// An object is destroyed only where its CKA_DESTROYABLE is true.
pub fn undestroyable_objects_are_not_destroyed()
    ensures { UndestroyableObjectsAreNotDestroyed }
{}

/// A token object ends only where the token is initialized, or where a C_DestroyObject names it.
pub fn token_objects_end_by_name()
    ensures { TokenObjectsEndByName }
{}

/// A token object is changed and destroyed only in read/write sessions.
pub fn token_objects_are_written_in_read_write_sessions()
    ensures { TokenObjectsAreWrittenInReadWriteSessions }
{}

/// A token object is created only in a read/write session.
pub fn token_objects_are_created_in_read_write_sessions()
    ensures { TokenObjectsAreCreatedInReadWriteSessions }
{}

/// A private object is visible only while the normal user is logged in.
pub fn private_objects_are_visible_to_the_user()
    ensures { PrivateObjectsAreVisibleToTheUser }
{}

/// Where a call that takes the handle of an object or a key is answered CKR_OK, the handle names an
/// object just before it, and if that is private the normal user is logged in there.
pub fn private_objects_are_named_by_the_user()
    ensures { PrivateObjectsAreNamedByTheUser }
{}

/// A reply to C_GetAttributeValue, whatever its code, has answers to queries only where the handle
/// names an object just before, and if that is private the normal user is logged in there.
pub fn private_attributes_are_given_to_the_user()
    ensures { PrivateAttributesAreGivenToTheUser }
{}

/// A handle of a private object is returned, by its creation or by a search, only where the normal
/// user is logged in just before.
pub fn private_handles_are_returned_to_the_user()
    ensures { PrivateHandlesAreReturnedToTheUser }
{}

/// An operation whose key was private at some front so far is active only while the normal user is
/// logged in.
pub fn private_keys_serve_the_user()
    ensures { PrivateKeysServeTheUser }
{}

/// A reply to C_GetAttributeValue, whatever its code, answers a query for CKA_VALUE with bytes only
/// where they are the value of the object that the handle names just before, and may be revealed.
pub fn hidden_values_are_not_given()
    ensures { HiddenValuesAreNotGiven }
{}

/// A search whose template gives CKA_VALUE finds no object whose value may not be revealed.
pub fn hidden_values_are_not_found()
    ensures { HiddenValuesAreNotFound }
{}

/// Where C_Sign or C_SignFinal is answered CKR_OK, the operation is active just before, its key
/// hasn't ended, and the key's state lets it sign.
pub fn signing_keys_may_sign()
    ensures { SigningKeysMaySign }
{}

/// Where C_Verify or C_VerifyFinal is answered CKR_OK, the operation is active just before, its key
/// hasn't ended, and the key's state lets it verify.
pub fn verifying_keys_may_verify()
    ensures { VerifyingKeysMayVerify }
{}

/// Where C_SignInit or C_VerifyInit is answered CKR_OK, its handle names a key just before, with
/// CKA_SIGN or CKA_VERIFY true and of a state that lets it sign or verify.
pub fn operations_start_with_usable_keys()
    ensures { OperationsStartWithUsableKeys }
{}

/// A signature that C_Sign or C_SignFinal returns is the HMAC of the message, or its first bytes,
/// under the value that the operation's key has just before.
pub fn signatures_are_of_the_key()
    ensures { SignaturesAreOfTheKey }
{}

/// A key that is sensitive stays so while it lasts.
pub fn sensitive_stays()
    ensures { SensitiveStays }
{}

/// A key that isn't extractable doesn't become extractable while it lasts.
pub fn unextractable_stays()
    ensures { UnextractableStays }
{}

/// A copy of a sensitive key is sensitive at its creation.
pub fn copies_stay_sensitive()
    ensures { CopiesStaySensitive }
{}

/// A copy of a key that isn't extractable isn't extractable at its creation.
pub fn copies_stay_unextractable()
    ensures { CopiesStayUnextractable }
{}

/// Where a value may not be revealed, that of a copy may not either at its creation.
pub fn copies_stay_hidden()
    ensures { CopiesStayHidden }
{}

/// What no template of a copy may give, a copy has at its creation as its source has it.
pub fn copies_keep_the_rest()
    ensures { CopiesKeepTheRest }
{}

/// An object is copied only where its CKA_COPYABLE is true.
pub fn uncopyable_objects_are_not_copied()
    ensures { UncopyableObjectsAreNotCopied }
{}

/// CKA_PRIVATE of an object never changes.
pub fn private_stays()
    ensures { PrivateStays }
{}

/// A copy of a private object is private at its creation.
pub fn copies_stay_private()
    ensures { CopiesStayPrivate }
{}

/// Where CKA_ALWAYS_SENSITIVE of a key is true at a front, the key is sensitive there, and was
/// sensitive at every earlier front at which it was there.
pub fn always_sensitive_is_true()
    ensures { AlwaysSensitiveIsTrue }
{}

/// Where CKA_NEVER_EXTRACTABLE of a key is true at a front, the key isn't extractable there, and
/// was extractable at no earlier front.
pub fn never_extractable_is_true()
    ensures { NeverExtractableIsTrue }
{}

/// What may not be revealed at a front may not be revealed at any later one.
pub fn hidden_stays()
    ensures { HiddenStays }
{}

/// A key never goes back to an earlier phase. The phases are pre-activation, active or suspended,
/// deactivated, compromised, and destroyed.
pub fn key_states_never_go_back()
    ensures { KeyStatesNeverGoBack }
{}

/// CKA_CLASS, CKA_TOKEN, CKA_PRIVATE, CKA_MODIFIABLE, CKA_COPYABLE and CKA_DESTROYABLE of an object
/// never change; nor do CKA_KEY_TYPE, CKA_VALUE, CKA_VALUE_LEN, CKA_LOCAL, CKA_KEY_GEN_MECHANISM,
/// CKA_ALWAYS_SENSITIVE and CKA_NEVER_EXTRACTABLE of a key.
pub fn read_only_attributes_stay()
    ensures { ReadOnlyAttributesStay }
{}

/// Of an object whose CKA_MODIFIABLE is false nothing changes, except the state of a key.
pub fn unmodifiable_objects_stay()
    ensures { UnmodifiableObjectsStay }
{}
