//! The texts of theories.

/// That of the rows.
pub const ROWS: &str = "
(theory rows)
(def sorts ((p bool) (q bool) (r bool) (a (int -2 2)) (b (int -2 2)) (c (int -2 2)) (d (int -2 2)) (h (int 0 5)) (i (int 0 5))
  (j (int 0 5)) (k (int 0 5)) (x (int 0 3)) (y (int 0 3)) (low (int 0 2)) (high (int 3 5)) (wide (int 0 9)) (broad (int 0 9))
  (over (int -1 9)) (under (int -1 3)) (s (set (int 1 3))) (t (set (int 1 3))) (u (set (int 1 3))) (neg-s (set (int -1 2)))
  (neg-t (set (int -1 2))) (v (seq (int 0 1) 2)) (w (seq (int 0 1) 3)) (neg-v (seq (int -1 1) 2)) (neg-w (seq (int -1 1) 2))
  (m (map (int 1 2) (int 0 1))) (n (map (int 1 2) (int 0 1))) (g (map (int 1 2) (set (int 0 1))))) bool true)
(def twice ((n (int 0 5))) (int 0 10) (add n n))
(def five () (int 5 5) 5)
(def some-above ((n (int 0 5))) bool (some i (range 1 3) (lt n i)))
(require true)
(axiom doubled ((i (int 0 5))) (given) (equal (twice i) (mul i 2)))
(axiom ordered ((i (int 0 5)) (k (int 0 5))) (given (le k i)) (equal (le (twice k) (twice i)) true))
(axiom capped ((i (int 0 5))) (given) (equal (min i 5) i))
(axiom doubly ((i (int 0 5))) (given) (equal (le i 5) (not (not (le i 5)))))
(axiom swapped ((i (int 0 5)) (k (int 0 5))) (given (le i k)) (equal (add i k) (add k i)))
(axiom spare ((i (int 0 5)) (j (int 0 5))) (given) (equal (max i 0) i))
(axiom grown ((i (int 0 5))) (given) (equal (le i (twice i)) true))
(axiom grows ((i (int 0 5))) (given) (holds (le i (twice i))))
(axiom rises ((h (int 0 5)) (i (int 0 5))) (given (le h i)) (holds (le (twice h) (twice i))))
(axiom small ((i (int 0 5))) (given) (holds (le (min i 5) 5)))
(axiom chained ((h (int 0 5)) (i (int 0 5)) (j (int 0 5))) (given (le h i) (le i j) (lt h 5)) (holds (le h j)))
(law fives ((i (int 0 5))) (given) (holds (le i 5)) (by))
(law opened ((i (int 0 5))) (given) (equal (twice i) (add i i)) (by (have m1 ((twice i))) (copy 2 (at (1) unfold))))
(output z bool)
(ensure z)
";

/// One with an input, and a condition on it.
pub const SQUARE: &str = "
(theory square)
(def sorts ((x (int 1 9)) (k (int 0 100))) bool true)
(input n (int 0 100))
(require (le 1 n))
(output z (int 1 10))
(ensure (eq (mul z z) n))
";

/// Queens on a board, of which no two attack each other.
pub const QUEENS: &str = "
(theory queens)
(def sorts ((v (seq (int 1 8) 8)) (x (seq (int 1 8) 8))) bool true)
(def safe ((v (seq (int 1 8) 8))) bool
  (all i (range 1 (len v)) (all j (range 1 (len v)) (implies (lt i j)
    (and (not (eq (at v i 0) (at v j 0)))
    (and (not (eq (sub (at v j 0) (at v i 0)) (sub j i)))
         (not (eq (sub (at v i 0) (at v j 0)) (sub j i)))))))))
(input n (int 1 8))
(require true)
(output z (seq (int 1 8) 8))
(ensure (and (eq (len z) n) (and (subset (items z) (range 1 n)) (safe z))))
";
