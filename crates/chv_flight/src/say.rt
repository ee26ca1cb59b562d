// What is said to clients.
ghost use Rattle.std.specs.Prelude.{true};
ghost use Rattle.chv_text.specs.Replies.{refused_line};
ghost use Rattle.chv_flight.specs.Answers.{Replies};

use crate::fault::RunFault;
use chv_ast::Refusal;
use chv_site::Site;
use chv_text::line_refused;

/// Says a reply; `refuses` tells whether it refuses its statement, and is answered.
pub fn reply<W: Site>(site: &mut W, text: &[u8], refuses: bool) -> Result<bool, RunFault>
    ensures { Replies W.tells text.now refuses result (W.outside site.old) (W.outside site.new) }
{
    match site.say(text) {
        Ok(()) => Ok(refuses),
        Err(_) => Err(RunFault::Say),
    }
}

/// Says a refusal to a client, and answers true.
pub fn refuse<W: Site>(site: &mut W, client: u8, refusal: Refusal) -> Result<bool, RunFault>
    ensures { Replies W.tells (refused_line client refusal) true result (W.outside site.old) (W.outside site.new) }
{
    reply(site, line_refused(client, refusal).as_slice(), true)
}
