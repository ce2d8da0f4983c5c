// The promises: theorems over tables and files, in the words and the order of the customer's three demands. There is no
// code here. Each theorem's statement can be read with the definitions that docs/PROMISES.md lists; its proof only cites.
#![tactic(auto)]
