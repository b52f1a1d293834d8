// What every body that is read has at its front.
ghost use Rattle.std.specs.Prelude.{◌≡◌};
ghost use Rattle.masks.specs.Response.{is_response};

use frame::RES;

// Whether the body is a response to this command.
pub fn is_response(body: &[u8], command: u8) -> bool
    ensures { result ≡ is_response body.now command }
{
    body.starts_with(&[RES, command])
}
