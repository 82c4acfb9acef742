// What is answered to a text: definitions, and worked sheets. Apart from the code that answers.
#![tactic(auto)]
