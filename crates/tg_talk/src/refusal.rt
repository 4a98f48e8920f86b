//! The lines of refusals for which there is no `WireFault`.

ghost use Rattle.std.specs.Prelude.{◌≡◌};
ghost use Rattle.tg_talk.specs.Promise.Refusals.{not_for_a_session_line as line_of_no_session, too_many_line as line_of_too_many};

/// The line that answers the line after the millionth. It allocates nothing.
#[tactic(auto, unfolding(crate::specs::Promise::Refusals::too_many_line, serde_json::proofs::OnLiterals::serde_json_on_literals))]
pub fn too_many_line() -> &'static [u8]
    ensures { result.now ≡ line_of_too_many }
{
    b"{\"error\":\"too many lines\"}\n"
}

/// The line that answers, in a talk, a line that asks for the shade or for the collector. It allocates nothing.
#[tactic(auto, unfolding(crate::specs::Promise::Refusals::not_for_a_session_line, serde_json::proofs::OnLiterals::serde_json_on_literals))]
pub(crate) fn not_for_a_session_line() -> &'static [u8]
    ensures { result.now ≡ line_of_no_session }
{
    b"{\"error\":\"not for a session\"}\n"
}
