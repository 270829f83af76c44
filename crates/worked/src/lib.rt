// The worked numbers of the scope, as rows over the definitions that the published contracts cite, and one theorem that every row holds.
#![tactic(auto)]
