// What is written of a result or a refusal: definitions, and how long the texts can be. Apart from the code that writes them.
#![tactic(auto)]
