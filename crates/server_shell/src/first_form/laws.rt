//! What the replies to an input are, as a law of the definitions.
ghost use Rattle.std.specs.Prelude.{◌≡◌, ℕ, List, map};
ghost use Rattle.vg_io.specs.Lines.{lines_of};
ghost use Rattle.server_shell.specs.Service.{Answers, read_lines};
ghost use Rattle.server_shell.specs.first_form.Answers.{first_form};

use super::keeper::HeardLine;
use super::reply::Reply;

/// The replies to an input are one to each line that is not blank, in their order, each with its
/// line's number.
pub fn each_line_has_its_reply()
    ensures { (input : List ℕ) (replies : List Reply) → Answers first_form input replies
        → map (λ (reply : Reply). reply.line) replies
        ≡ map (λ (line : HeardLine). line.number) (read_lines first_form 1 (lines_of input)) }
{}
