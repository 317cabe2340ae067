#![tactic(auto)]

ghost use Rattle.std.specs.Prelude.{◌≡◌, true};
ghost use Rattle.grammar.specs.Grammar.{Exact};

// Every sound request has a line that asks for it, and a line that asks for a request is the one written for it.
pub fn grammar_is_exact() -> bool
    ensures exact { Exact }
    ensures answer { result ≡ true }
{
    prove_exact();
    true
}

fn prove_exact()
    ensures { Exact }
{}
