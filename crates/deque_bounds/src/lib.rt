// Memory limits of DFDeques for every order and every choice: theorems alone, over rows of turns and lists of calls. No code stands here.
#![tactic(auto)]
