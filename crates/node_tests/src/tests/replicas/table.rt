//! Logs and questions with their answers, by hand from the definitions.

pub static TABLE: &str = "\
log
load a 5 x
put 1 b 20 y
commit 1 b 20
put 2 c 30 z
commit 2 c 32
read 9 ad 40 - -> rows a=x b=y c=z
read 9 ad 25 - -> rows a=x b=y
read 9 ad 25 31 -> rows a=x b=y
read 9 ad 25 32 -> uncertain c 32.0.2
read 9 ad 10 20 -> uncertain b 20.0.1
read 9 ad 10 32 -> uncertain b 20.0.1
read 9 ac 25 32 -> rows a=x b=y
read 9 bd 25 - -> rows b=y
read 9 aa 40 - -> rows
read 9 da 40 - -> rows
read 9 ef 40 - -> rows
read 9 ad 5.0.0 - -> rows
read 9 ad 5.0.1 - -> rows a=x
read 9 bc 20.0.1 - -> rows
read 9 bc 20.0.1 20 -> rows
read 9 bc 20.0.0 20 -> uncertain b 20.0.1
read 9 bc 20.0.2 20 -> rows b=y
newest 0 bc -> 20.0.1
newest 0 dz -> none
lowest 9 ad -> none
refresh 9 ad 10 40 -> newer 20.0.1
refresh 9 ad 20.0.1 40 -> newer 32.0.2
refresh 9 ad 25 32.0.2 -> done
refresh 9 ad 33 40 -> done
refresh 9 ab 1 4 -> done
refresh 9 ab 1 6 -> newer 5.0.0
refresh 9 da 1 90 -> done
log
load k 5 a
put 1 k 10 b
commit 1 k 11
put 2 k 20 -
commit 2 k 20
put 3 k 30 c
commit 3 k 30
read 9 kl 8 - -> rows k=a
read 9 kl 15 - -> rows k=b
read 9 kl 25 - -> rows
read 9 kl 35 - -> rows k=c
read 9 kl 8 40 -> uncertain k 11.0.1
read 9 kl 15 20 -> uncertain k 20.0.2
read 9 kl 25 29 -> rows
read 9 kl 25 30 -> uncertain k 30.0.3
refresh 9 kl 15 25 -> newer 20.0.2
refresh 9 kl 6 40 -> newer 11.0.1
newest 0 kl -> 30.0.3
log
load k 5 a
load m 6 e
put 1 k 20 b
read 9 kn 30 - -> unknown k a1 101.0.1 r11
read 9 kn 10 - -> rows k=a m=e
read 9 kn 10 19 -> rows k=a m=e
read 9 kn 10 20 -> unknown k a1 101.0.1 r11
read 9 kn 20.0.1 - -> unknown k a1 101.0.1 r11
read 9 kn 20.0.0 - -> rows k=a m=e
read 1 kn 30 - -> rows k=a m=e
read 1 kn 10 20 -> rows k=a m=e
read 9 kn 30 - 1c25 -> rows k=b m=e
read 9 kn 30 - 1c35 -> rows k=a m=e
read 9 kn 30 34 1c35 -> rows k=a m=e
read 9 kn 30 35 1c35 -> uncertain k 35.0.1
read 9 kn 30 - 1a -> rows k=a m=e
read 9 kn 30 - 1p30.0.9 -> rows k=a m=e
read 9 kn 30 - 1p30.0.8 -> unknown k a1 101.0.1 r11
read 9 kn 30 - 1p31 -> rows k=a m=e
read 9 kn 30 - 1p29 -> unknown k a1 101.0.1 r11
read 9 kn 30 - 2a 2c25 -> unknown k a1 101.0.1 r11
read 9 kn 30 - 1a 1c25 -> rows k=b m=e
read 9 kn 30 - 1c25 1a -> rows k=a m=e
read 9 kn 30 - 1p31 1p29 -> unknown k a1 101.0.1 r11
read 9 mn 30 - -> rows m=e
lowest 9 kn -> 20.0.1
lowest 1 kn -> none
lowest 9 mn -> none
refresh 9 kn 10 30 -> unknown k a1 101.0.1 r11
refresh 9 kn 10 15 -> done
refresh 9 kn 10 20.0.1 -> unknown k a1 101.0.1 r11
refresh 1 kn 10 30 -> done
refresh 9 kn 10 30 1c25 -> newer 25.0.1
refresh 9 kn 10 30 1a -> done
refresh 9 kn 10 30 1p30.0.9 -> done
refresh 9 kn 10 30 1p20 -> unknown k a1 101.0.1 r11
refresh 9 kn 26 30 1c25 -> done
refresh 9 kn 10 25.0.1 1c25 -> done
log
put 1 b 20 x
commit 1 b 20
put 2 b 30 y
put 3 a 40 z
commit 3 a 40
put 4 c 10 w
read 9 bc 15 30 -> unknown b a2 102.0.2 r12
read 9 ad 15 40 -> uncertain a 40.0.3
read 9 ad 15 39 -> unknown b a2 102.0.2 r12
read 9 ad 15 29 -> uncertain b 20.0.1
read 9 ad 15 19 -> unknown c a4 104.0.4 r14
read 9 ad 15 19 4a -> rows
read 9 ad 35 - 2a 4a -> rows b=x
refresh 9 ad 5 50 -> unknown b a2 102.0.2 r12
refresh 9 ad 5 50 2a -> unknown c a4 104.0.4 r14
refresh 9 ad 5 50 2a 4a -> newer 20.0.1
refresh 9 ad 5 50 2c31 4c11 -> newer 11.0.4
lowest 9 ad -> 10.0.4
lowest 4 ad -> 30.0.2
log
put 1 k 10 a
put 2 k 20 b
read 9 kl 30 - -> unknown k a2 102.0.2 r12
read 9 kl 15 - -> rows
commit 1 k 10
read 9 kl 30 - 2a -> rows
abort 2 k
read 9 kl 30 - -> rows
lowest 9 kl -> none
newest 0 kl -> none
put 3 k 12 c
commit 3 k 12.0.3
load k 12.0.3 d
read 9 kl 30 - -> rows k=d
put 4 k 11 e
read 9 kl 30 - 4c12.0.3 -> rows k=d
read 9 kl 30 - 4c12.0.4 -> rows k=e
read 9 kl 12.0.3 - 4c12.0.3 -> rows
commit 4 k 12.0.3
close 50
read 9 kl 30 - -> rows k=e
log
put 1 k 1500 v
commit 1 k 1500.0.1
read 2 kl 1000.0.2 1500 -> uncertain k 1500.0.1
read 3 kl 1500.1.3 1500 -> rows k=v
log
put 1 k 1501 v
commit 1 k 1501.0.1
read 2 kl 1000.0.2 1500 -> rows
log
put 1 a 1000 1
read 2 az 1010.0.2 1510 -> unknown a a1 101.0.1 r11
read 2 az 1010.0.2 1510 1c1000.0.1 -> rows a=1
put 3 b 1010.0.3 2
read 4 bc 1010.1.4 1510 1c1000.0.1 -> unknown b a3 103.0.3 r13
read 4 bc 1010.1.4 1510 1c1000.0.1 3p1010.1.4 -> rows
read 5 bc 6011.0.5 6511 -> unknown b a3 103.0.3 r13
read 5 bc 6011.0.5 6511 3p6011.0.5 -> rows
abort 3 b
put 5 b 6011 2
commit 5 b 6011
read 6 az 6011.1.6 6511 1c1000.0.1 -> rows a=1 b=2
";
