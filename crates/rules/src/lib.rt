// The rules of the second walk, the plain runner, and what is proved of both: definitions and theorems, and no code.
// specs/Verdict.antt, specs/Runner.antt and specs/Demands.antt first. The code that keeps the rules stands in the crates from `values` to `gate`.
#![tactic(auto)]
